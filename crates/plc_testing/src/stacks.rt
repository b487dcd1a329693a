// A lock-free stack in two spellings: hazard pointers protect its nodes, or epochs do. Each is a list of pieces, of
// which most stand in both: they differ in their observer and in how a node is taken.

const NODES: &str = "struct Node { ptr next; data val; }
shared Top;
";

const HAZARD_OBSERVER: &str = "call protect(ptr);
use hazard(protect);
";

const EPOCH_OBSERVER: &str = "call enter();
call leave();
use epoch(enter, leave);
";

const PUSH: &str = "ghost st { made, linked, cut };
ghost owner thread;
op push(v) {
ptr n; ptr t;
atomic { n := new; ghost n.owner := me; }
n.val := v;
loop {
t := Top;
n.next := t;
choose {
atomic { n.next ?= Top; ghost n.st := linked; ghost n.owner := none; Top := n; n := null; }
return;
} or { }
}
}
op pop() {
ptr t; ptr s;
";

const HAZARD_READ: &str = "loop {
t := Top;
if (t == null) { return; }
protect(t);
choose {
atomic { t ?= Top; active t; }
";

const EPOCH_READ: &str = "enter();
loop {
atomic { t := Top; active t; }
if (t == null) { break; }
";

const TAKE: &str = "s := t.next;
label d;
choose {
label e;
atomic { active Top; assume Top == t; ghost t.st := cut; ghost t.owner := me; Top := s; }
label f;
retire(active t);
";

const LOSE: &str = "} or {
atomic { active Top; assume Top != t; }
}
";

const OUTLINE: &str = "outline {
inv Top == null or Top.st == linked;
inv all x: x.st != linked or not retired(x);
inv all x, y: x.st != linked or x.next != y or y.st == linked;
inv all x: Top == null or x.st != linked or x.next != Top;
inv all x, y: x.st != linked or y.st != linked or x.next == null or x.next != y.next or x == y;
over push: n == null or n.st == made;
over push: n == null or n.owner == me;
over push: n == null or not retired(n);
over pop: t == null or t.st != made;
at d, e: t != null;
at d, e: t.next == s;
at f: t.st == cut;
at f: t.owner == me;
at f: not retired(t);
}
";

/// The stack with hazard pointers, whose outline holds.
pub const HAZARDS: [&str; 9] = [
    NODES,
    HAZARD_OBSERVER,
    PUSH,
    HAZARD_READ,
    TAKE,
    "return;\n",
    LOSE,
    "} or { }\n}\n}\n",
    OUTLINE,
];

/// The stack with epochs, whose outline holds.
pub const EPOCHS: [&str; 9] = [
    NODES,
    EPOCH_OBSERVER,
    PUSH,
    EPOCH_READ,
    TAKE,
    "break;\n",
    LOSE,
    "}\nleave();\n}\n",
    OUTLINE,
];
