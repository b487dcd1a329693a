// The parts of a sample, in which `#` stands for the number of a copy.
ghost use Rattle.std.specs.Prelude.{◌≡◌};
ghost use Rattle.plc_sample.specs.Sample.{declarations, operations, invariants, clauses, ending};

/// What all copies share.
#[tactic(auto, unfolding(crate::specs::Sample::declarations))]
pub(crate) fn declarations() -> &'static str
    ensures { result.now ≡ declarations }
{
    "\
struct Node { ptr next; data val; }\n\
shared Top;\n\
call protect(ptr);\n\
use hazard(protect);\n\
ghost st { made, linked, cut };\n\
ghost owner thread;\n"
}

/// The two operations of a copy.
#[tactic(auto, unfolding(crate::specs::Sample::operations))]
pub(crate) fn operations() -> &'static str
    ensures { result.now ≡ operations }
{
    "\
op push#(v) {\n\
ptr n; ptr t;\n\
atomic { n := new; ghost n.owner := me; }\n\
n.val := v;\n\
loop {\n\
t := Top;\n\
n.next := t;\n\
choose {\n\
atomic { n.next ?= Top; ghost n.st := linked; ghost n.owner := none; Top := n; n := null; }\n\
return;\n\
} or { }\n\
}\n\
}\n\
op pop#() {\n\
ptr t; ptr s;\n\
loop {\n\
t := Top;\n\
if (t == null) { return; }\n\
protect(t);\n\
choose {\n\
atomic { t ?= Top; active t; }\n\
s := t.next;\n\
label d#;\n\
choose {\n\
label e#;\n\
atomic { active Top; assume Top == t; ghost t.st := cut; ghost t.owner := me; Top := s; }\n\
label f#;\n\
retire(active t);\n\
return;\n\
} or {\n\
atomic { active Top; assume Top != t; }\n\
}\n\
} or { }\n\
}\n\
}\n"
}

/// Where the outline begins.
#[tactic(auto, unfolding(crate::specs::Sample::invariants))]
pub(crate) fn invariants() -> &'static str
    ensures { result.now ≡ invariants }
{
    "\
outline {\n\
inv Top == null or Top.st == linked;\n\
inv all x: x.st != linked or not retired(x);\n\
inv all x, y: x.st != linked or x.next != y or y.st == linked;\n\
inv all x: Top == null or x.st != linked or x.next != Top;\n\
inv all x, y: x.st != linked or y.st != linked or x.next == null or x.next != y.next or x == y;\n"
}

/// The clauses of a copy.
#[tactic(auto, unfolding(crate::specs::Sample::clauses))]
pub(crate) fn clauses() -> &'static str
    ensures { result.now ≡ clauses }
{
    "\
over push#: n == null or n.st == made;\n\
over push#: n == null or n.owner == me;\n\
over push#: n == null or not retired(n);\n\
over pop#: t == null or t.st != made;\n\
at d#, e#: t != null;\n\
at d#, e#: t.next == s;\n\
at f#: t.st == cut;\n\
at f#: t.owner == me;\n\
at f#: not retired(t);\n"
}

/// Where the outline ends.
#[tactic(auto, unfolding(crate::specs::Sample::ending))]
pub(crate) fn ending() -> &'static str
    ensures { result.now ≡ ending }
{
    "\
}\n"
}
