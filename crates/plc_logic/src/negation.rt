// The negation of a literal. A clause is negated literal by literal, each as a clause of its own.
ghost use Rattle.std.specs.Prelude.{◌≡◌};
ghost use Rattle.plc_logic.specs.Negation.{negation, NegationTurnsTheTruth};

use crate::clause::Literal;

/// The literal that is true where this one isn't. It takes no memory.
pub fn negated(literal: &Literal) -> Literal
    ensures { result ≡ negation literal.now }
{
    match *literal {
        Literal::Same { a, b, equal } => Literal::Same {
            a,
            b,
            equal: !equal,
        },
        Literal::Retired { x, yes } => Literal::Retired { x, yes: !yes },
        Literal::Marked { t, yes } => Literal::Marked { t, yes: !yes },
    }
}

/// The law that the negation of a literal says the opposite of the same terms, and that it is negated
/// to the literal again.
pub fn negation_turns_the_truth()
    ensures { NegationTurnsTheTruth }
{}
