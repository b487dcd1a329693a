// Files with every form that an outline and a step may have: one without marks, one that uses them.

// Two operations over a struct with two pointer fields and a data field, at depth 1.
pub(crate) const DEEP: &str = "struct Node { ptr next; data val; ptr other; }
shared Top; shared Spare;
call enter(); call leave();
use epoch(enter, leave);
ghost st { made, linked, cut };
ghost owner thread;
init { Top := new; Top.val := 7; ghost Top.st := linked; Spare := null; }
op put(v) {
ptr n; ptr t; data x;
atomic { n := new; ghost n.owner := me; n.val := v; }
label a;
atomic { t := Top; active t; x := t.val; n.next ?= t; n.other := null; Top := n; ghost n.st := linked; \
    ghost n.owner := none; }
label b;
if (x < 12) { x := 3; } else { x := v; }
}
op take() {
ptr t; ptr s;
enter();
atomic { t := Top; active t; assume t != null; s ?= t.next; s := t.other; }
label c;
choose { atomic { active Top; assume Top == t; Top := s; ghost t.st := cut; ghost t.owner := me; } label d; retire(t); }
or { atomic { assume Top != t; t.other := s; Spare := t; } }
leave();
}
outline { depth 1;
inv Top == null or Top.st == linked;
inv all x, y: x.st != linked or x.next != y or y == null or y.st != cut;
inv all x: x.owner == none or x.st != linked or not retired(x);
over put: n == null or n.owner == me or n.st == linked;
at a, b: n != null;
at b: x == n.val or n.next == t;
over take: t == null or t.st != made or t.owner != me;
at c: t.next == s or t.other == s or Spare == t;
}
";

// Two operations over a struct with a pointer field and a data field, at depth 1, that set, clear and test marks, and
// say in the outline what is marked.
pub(crate) const DEEP_MARKED: &str = "struct Node { ptr next; data val; }
shared Head; shared Spare;
call enter(); call leave();
use epoch(enter, leave);
ghost st { made, linked, cut };
init { Head := new; Head := mark Head; ghost Head.st := linked; }
op put(v) {
ptr n; ptr p;
atomic { n := new; n.val := v; }
atomic { p := Head; active p; assume unmarked p; n.next ?= p; Head := n; ghost n.st := linked; }
}
op del() {
ptr p; ptr c; data x;
enter();
atomic { p := Head; active p; assume p != null; c := p.next; }
label a;
choose {
atomic { assume unmarked c; assume p != c; c := mark c; p.next := c; }
label b;
} or {
atomic { assume marked c; active p; p := p.next; p := unmark p; x := p.val; }
if (marked c) { c := unmark c; } else { Spare := c; }
} or {
atomic { active p; active Head; assume Head == p; c ?= p.next; p.next ?= Spare; Spare := mark p; }
retire(p);
}
leave();
}
outline { depth 1;
inv Head == null or not marked(Head.next) or Head.st == linked;
inv all x, y: x.st != linked or x.next != y or marked(x.next) or y == null or y.st != cut;
over put: n == null or n.st == made or n.st == linked;
at a: p != null;
at a: p.next == c or not marked(c);
at b: marked(c) or marked(p.next);
}
";
