// The flows of statements, by the written table: a line for each step.
use crate::tests::tables::{Answers, assert_lines, assert_rows};
use crate::tests::texts::{BEFORE, number, push_repeated, read};
use plc_base::What1;
use plc_flow::{Flow, FlowFault, Gate, Step, lower};
use std::alloc::{AllocError, Global};

// A step: its operation, from where to where, its line, and its primitives.
fn push_step(text: &mut String, step: &Step) -> Result<(), AllocError> {
    let op = step.op.0;
    let from = step.from.0;
    let to = step.to.0;
    let line = step.line;
    let prims = step.prims.as_slice();
    write!(text, "{op} {from} {to} {line} {prims:?}\n")
}

// An operation: its entry, exit, first point and the first after them.
fn push_gate(text: &mut String, gate: &Gate) -> Result<(), AllocError> {
    let entry = gate.entry.0;
    let exit = gate.exit.0;
    let first = gate.first;
    let after = gate.after;
    write!(text, " gate {entry} {exit} {first} {after}")
}

// How many points there are, the operations, and the labelled points.
fn push_head(text: &mut String, flow: &Flow) -> Result<(), AllocError> {
    let points = flow.points;
    write!(text, "{points} points")?;
    for gate in flow.gates.as_slice() {
        push_gate(text, gate)?;
    }
    for label in flow.labels.as_slice() {
        let point = label.0;
        write!(text, " label {point}")?;
    }
    text.push('\n')
}

fn push_flow(text: &mut String, flow: &Flow) -> Result<(), AllocError> {
    push_head(text, flow)?;
    for step in flow.steps.as_slice() {
        push_step(text, step)?;
    }
    Ok(())
}

// The one owner of a flow has one way out.
fn lowered(alloc: Global, text: &str) -> Result<Flow, FlowFault> {
    match read(alloc, text) {
        Ok(unit) => lower(alloc, unit.file),
        Err(_) => Err(FlowFault::Memory),
    }
}

fn push_lowering(alloc: Global, answer: &mut String, text: &str) -> Result<(), AllocError> {
    match lowered(alloc, text) {
        Ok(flow) => {
            let pushed = push_flow(answer, &flow);
            drop(flow);
            pushed
        }
        Err(fault) => write!(answer, "{fault:?}\n"),
    }
}

// The statement's file; each `|` begins a line, the first is line 8.
fn push_file(text: &mut String, statement: &str) -> Result<(), AllocError> {
    text.push_str(BEFORE)?;
    for line in statement.split("|") {
        text.push_str(line)?;
        text.push('\n')?;
    }
    text.push('}')
}

// The flow of the statement's file.
struct FlowOf;

impl Answers for FlowOf {
    fn push(&self, alloc: Global, answer: &mut String, statement: &str) -> Result<(), AllocError> {
        let mut text = String::new(alloc);
        match push_file(&mut text, statement) {
            Ok(()) => push_lowering(alloc, answer, text.as_str()),
            Err(fault) => Err(fault),
        }
    }
}

const FLOWS: &str = "n := new;
3 points gate 0 1 0 3
0 0 2 8 [New { p: Local(0) }]
0 2 1 6 []
# skip;
3 points gate 0 1 0 3
0 0 2 8 []
0 2 1 6 []
# atomic { n := new; n.val := 7; }
3 points gate 0 1 0 3
0 0 2 8 [New { p: Local(0) }, DataStore { p: Local(0), f: FieldId(1), e: Lit(7) }]
0 2 1 6 []
# atomic { n := null; Top := n; n := m.next; n.next := m; n.next := null; n.next ?= m; n ?= m; m ?= n.next; }
3 points gate 0 1 0 3
0 0 2 8 [Null { p: Local(0) }, Copy { p: Shared(0), q: Local(0) }, Load { p: Local(0), q: Local(1), f: FieldId(0) }, \
    Store { p: Local(0), f: FieldId(0), q: Local(1) }, StoreNull { p: Local(0), f: FieldId(0) }, \
    RefreshStore { p: Local(0), f: FieldId(0), q: Local(1) }, Refresh { p: 0, q: Local(1) }, \
    RefreshLoad { p: 1, q: Local(0), f: FieldId(0) }]
0 2 1 6 []
# atomic { x := 7; x := w; v := n.val; n.val := x; active n; ghost n.owner := me; ghost n.st := cut; \
    ghost m.owner := none; }
3 points gate 0 1 0 3
0 0 2 8 [DataSet { x: 2, e: Lit(7) }, DataSet { x: 2, e: Local(1) }, DataLoad { x: 0, q: Local(0), f: FieldId(1) }, \
    DataStore { p: Local(0), f: FieldId(1), e: Local(2) }, Active { p: Local(0) }, \
    Ghost { p: Local(0), g: 1, v: Me }, Ghost { p: Local(0), g: 0, v: Value(1) }, Ghost { p: Local(1), g: 1, v: None }]
0 2 1 6 []
# return;
3 points gate 0 1 0 3
0 0 1 8 []
0 2 1 6 []
# guard(active Top) during l;
4 points gate 0 1 0 4 label 2
0 0 2 8 [Active { p: Shared(0) }, Call { func: FuncId(2), arg: Var(Shared(0)) }]
0 2 3 8 [Done { func: FuncId(2) }]
0 3 1 6 []
# guard(Top);
4 points gate 0 1 0 4
0 0 2 8 [Call { func: FuncId(2), arg: Var(Shared(0)) }]
0 2 3 8 [Done { func: FuncId(2) }]
0 3 1 6 []
# guard(null) during l;
4 points gate 0 1 0 4 label 2
0 0 2 8 [Call { func: FuncId(2), arg: Null }]
0 2 3 8 [Done { func: FuncId(2) }]
0 3 1 6 []
# enter();
4 points gate 0 1 0 4
0 0 2 8 [Call { func: FuncId(1), arg: None }]
0 2 3 8 [Done { func: FuncId(1) }]
0 3 1 6 []
# if (Top == null) {| label a;| n := new;| } else {| skip;| label b; }
7 points gate 0 1 0 7 label 2 label 5
0 0 2 8 [IsNull { p: Shared(0) }]
0 2 3 10 [New { p: Local(0) }]
0 0 4 8 [NotNull { p: Shared(0) }]
0 4 5 12 []
0 3 6 8 []
0 5 6 8 []
0 6 1 6 []
# choose {| n := new;| label l; } or { } or {| skip; }
8 points gate 0 1 0 8 label 3
0 0 2 8 []
0 2 3 9 [New { p: Local(0) }]
0 0 4 8 []
0 0 5 8 []
0 5 6 11 []
0 3 7 8 []
0 4 7 8 []
0 6 7 8 []
0 7 1 6 []
# loop {| loop {| break;| return; }| break;| label l; }
9 points gate 0 1 0 9 label 8
0 0 2 8 []
0 2 4 9 []
0 4 5 10 []
0 6 1 11 []
0 7 4 9 []
0 5 3 12 []
0 8 2 8 []
0 3 1 6 []
# n := new;| label a; }| op g() {| label b;| skip;
6 points gate 0 1 0 3 gate 3 4 3 6 label 2 label 3
0 0 2 8 [New { p: Local(0) }]
0 2 1 6 []
1 3 5 12 []
1 5 4 10 []
";

#[test]
fn flows_are_those_of_the_table(rt: HostRuntime) -> Result<(), AllocError> {
    assert_rows(&rt, rt.alloc(), &FlowOf, FLOWS, "# ", "\n")
}

// Conditions, with the primitives of the step where each holds, and of the step where it doesn't.
const CONDITIONS: &str = "\
Top == n => Eq { p: Shared(0), q: Local(0) } => Ne { p: Shared(0), q: Local(0) }
Top != n => Ne { p: Shared(0), q: Local(0) } => Eq { p: Shared(0), q: Local(0) }
Top == null => IsNull { p: Shared(0) } => NotNull { p: Shared(0) }
Top != null => NotNull { p: Shared(0) } => IsNull { p: Shared(0) }
x == v => DataTest { rel: Eq, x: 2, e: Local(0) } => DataTest { rel: Ne, x: 2, e: Local(0) }
x != v => DataTest { rel: Ne, x: 2, e: Local(0) } => DataTest { rel: Eq, x: 2, e: Local(0) }
x < 3 => DataTest { rel: Lt, x: 2, e: Lit(3) } => DataTest { rel: Ge, x: 2, e: Lit(3) }
x >= 3 => DataTest { rel: Ge, x: 2, e: Lit(3) } => DataTest { rel: Lt, x: 2, e: Lit(3) }
marked n => MarkTest { p: Local(0), yes: true } => MarkTest { p: Local(0), yes: false }
unmarked Top => MarkTest { p: Shared(0), yes: false } => MarkTest { p: Shared(0), yes: true }
n ?= Top => Refresh { p: 0, q: Shared(0) } => 
m ?= Top.next => RefreshLoad { p: 1, q: Shared(0), f: FieldId(0) } => 
cas(Top, null, null) => IsNull { p: Shared(0) }, Null { p: Shared(0) } => NotNull { p: Shared(0) }
cas(active Top, n, m) => Active { p: Shared(0) }, Eq { p: Shared(0), q: Local(0) }, \
    Copy { p: Shared(0), q: Local(1) } => Active { p: Shared(0) }, Ne { p: Shared(0), q: Local(0) }
";

// The primitives where a test holds and where it doesn't, of the flow of one without statements.
fn branches(flow: &str) -> Option<(&str, &str)> {
    let steps = flow.strip_prefix("5 points gate 0 1 0 5\n0 0 2 8 [")?;
    let (holds, steps) = steps.split_once("]\n0 0 3 8 [")?;
    let fails = steps.strip_suffix("]\n0 2 4 8 []\n0 3 4 8 []\n0 4 1 6 []\n")?;
    Some((holds, fails))
}

// The primitives of a test, or a flow that is no test's.
fn push_branches(answer: &mut String, flow: &str) -> Result<(), AllocError> {
    match branches(flow) {
        Some((holds, fails)) => write!(answer, "{holds} => {fails}"),
        None => answer.push_str(flow),
    }
}

fn push_condition_flow(
    alloc: Global,
    flow: &mut String,
    condition: &str,
) -> Result<(), AllocError> {
    let statement = format!(in alloc; "if ({condition}) {{ }}")?;
    FlowOf.push(alloc, flow, statement.as_str())
}

struct BranchesOf;

impl Answers for BranchesOf {
    fn push(&self, alloc: Global, answer: &mut String, condition: &str) -> Result<(), AllocError> {
        let mut flow = String::new(alloc);
        match push_condition_flow(alloc, &mut flow, condition) {
            Ok(()) => push_branches(answer, flow.as_str()),
            Err(fault) => Err(fault),
        }
    }
}

#[test]
fn conditions_branch(rt: HostRuntime) -> Result<(), AllocError> {
    assert_lines(&rt, rt.alloc(), &BranchesOf, CONDITIONS)
}

fn push_flow_of_many(alloc: Global, flow: &mut String, count: u32) -> Result<(), AllocError> {
    let mut text = String::new(alloc);
    match push_repeated(&mut text, count, BEFORE, "skip;", "}") {
        Ok(()) => push_lowering(alloc, flow, text.as_str()),
        Err(fault) => Err(fault),
    }
}

// The first line of the flow, or the fault, where this many statements are missing to the limit of points.
struct HeadOfMany;

impl Answers for HeadOfMany {
    fn push(&self, alloc: Global, answer: &mut String, fewer: &str) -> Result<(), AllocError> {
        let count = What1::Points.most().saturating_sub(number(fewer));
        let mut flow = String::new(alloc);
        match push_flow_of_many(alloc, &mut flow, count) {
            Ok(()) => answer.push_str(flow.as_str().lines().next().unwrap_or("")),
            Err(fault) => Err(fault),
        }
    }
}

// The operation's entry and exit are points too.
const HEADS: &str = "\
2 => 4096 points gate 0 1 0 4096
1 => TooManyPoints { count: 4097 }
";

#[test]
fn a_flow_has_at_most_4096_points(rt: HostRuntime) -> Result<(), AllocError> {
    assert_lines(&rt, rt.alloc(), &HeadOfMany, HEADS)
}
