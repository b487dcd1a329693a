// A garbage-collected run that speaks of marks, beside the run in memory.
use crate::tests::erased::Both;
use crate::tests::loading::ran;
use crate::tests::texts::text_is;
use plc_base::NoMemory;

// `carry` hands a mark on, `empty` marks null, and `renew` refreshes.
const MARKED: &str = "struct Node { ptr next; }
shared Top;
op carry(v) { ptr t; ptr s; Top := new; t := mark Top; if (t == Top) { } s := t; if (s == t) { } Top.next := s;
t := unmark t; if (marked t) { } t := t.next; if (unmarked t) { } if (t == s) { } }
op empty() { ptr t; Top := null; t := mark Top; if (t == null) { } if (t == Top) { } if (marked t) { }
if (t ?= Top.next) { } }
op renew() { ptr t; ptr s; Top := new; s := mark Top; t := mark Top; t ?= s; Top.next := s; t ?= Top.next;
Top.next ?= t; t := unmark t; t ?= s; if (marked t) { } }
";

// The beginning of each operation.
const CARRY: &str = "start 0 0 => Done Done
step 0 0 1 => Done Done
";

const EMPTY: &str = "start 0 1 => Done Done
";

const RENEW: &str = "start 0 2 => Done Done
step 0 0 2 => Done Done
";

const STEP: &str = "step 0 0 => Done Done
";

// A test that holds and one that fails, with the step after it. The side that is blocked is tried first.
const HOLDS: &str = "step 0 1 => Blocked Blocked
step 0 0 => Done Done
step 0 0 => Done Done
";

const FAILS: &str = "step 0 0 => Blocked Blocked
step 0 1 => Done Done
step 0 0 => Done Done
";

const RETURN: &str = "return 0 => Done Done
";

// The places with the first node, with null, and with the second node.
const FIRST: &str = "places =>  Top=1/1 t=1/1
";

const NULL: &str = "places =>  Top=0/0 t=0/0
";

const SECOND: &str = "places =>  Top=2/2 t=2/2
";

// Memory blocks a refresh, since the marks differ, while the garbage-collected run goes on alone to a test that holds.
const ALONE: &str = "step 0 0 => Blocked Done
step 0 1 => Blocked Blocked
step 0 0 => Blocked Done
";

// The three operations, one after the other.
const RUN: [&str; 36] = [
    CARRY, STEP, FIRST, FAILS, STEP, HOLDS, STEP, STEP, FAILS, STEP, FIRST, FAILS, HOLDS, STEP,
    RETURN, EMPTY, STEP, STEP, NULL, HOLDS, FAILS, HOLDS, FAILS, STEP, RETURN, RENEW, STEP, STEP,
    STEP, STEP, STEP, STEP, STEP, SECOND, ALONE, SECOND,
];

#[test]
fn marks_are_carried(rt: HostRuntime) -> Result<(), NoMemory> {
    let run = RUN.concat(rt.alloc())?;
    text_is(
        &rt,
        ran(rt.alloc(), MARKED, &Both, run.as_str()),
        run.as_str(),
    )
}
