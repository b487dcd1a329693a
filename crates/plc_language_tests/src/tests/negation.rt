// A literal and its opposite.
use plc_logic::{Base, Literal, Term, negated};
use std::process::Abort;

// `x == null`, or `x != null`.
fn equation(equal: bool) -> Literal {
    Literal::Same {
        a: Term::Bound(0),
        b: Term::Null,
        equal,
    }
}

// Whether a literal is this equation, and then whether it is the equal one.
fn equation_in(literal: Literal) -> Option<bool> {
    match literal {
        Literal::Same {
            a: Term::Bound(0),
            b: Term::Null,
            equal,
        } => Some(equal),
        _ => None,
    }
}

// `retired(S2)`, or `not retired(S2)`.
fn retired(yes: bool) -> Literal {
    Literal::Retired {
        x: Base::Shared(2),
        yes,
    }
}

// Whether a literal is this question, and then whether it says yes.
fn retired_in(literal: Literal) -> Option<bool> {
    match literal {
        Literal::Retired {
            x: Base::Shared(2),
            yes,
        } => Some(yes),
        _ => None,
    }
}

// Fails where a literal is another, or where it says otherwise.
fn assert_says(rt: &impl Abort, name: &str, have: Option<bool>, want: bool) {
    assert_eq!(rt; have, Some(want), "{name}");
}

#[test]
fn literals_are_negated(rt: HostRuntime) {
    for yes in [true, false] {
        assert_says(&rt, "equation", equation_in(negated(&equation(yes))), !yes);
        assert_says(&rt, "retired", retired_in(negated(&retired(yes))), !yes);
    }
}
