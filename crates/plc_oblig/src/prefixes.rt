// What sets that are made one after another share. The list of a ground set is fixed, but ends with the negated
// conclusion, so obligations of one step, and of one point of another thread, have all before it in common, if their
// conclusions bind as many names. One draft of it is kept for each such number, since clauses with 0, 1 and 2 names
// alternate; the next conclusion is written after it and cut off again.
ghost use Rattle.std.specs.Prelude.{◌≡◌, IfSome};
ghost use Rattle.plc_oblig.specs.Prefixes.{begin_alike, IsPrefix, ArePrefixes};
ghost use Rattle.plc_oblig.specs.declared.annotated.Annotated.{Annotated as AProgram};

use plc_encoding::Execution;
use plc_symbolic::Draft;
use plc_vocabulary::Obligation;

/// What the set of an obligation has before the negated conclusion.
#[derive(Drop)]
pub struct Prefix {
    /// The obligation that it was made for, and how many names its conclusion binds.
    pub obligation: Obligation,
    pub bound: u16,
    pub draft: Draft,
    /// What was executed, after which a conclusion is read.
    pub executed: Execution,
}

/// Whether both are of one step, and of one point if they are another thread's.
pub fn begin_alike(a: &Obligation, b: &Obligation) -> bool
    ensures { result ≡ begin_alike a.now b.now }
{
    match (*a, *b) {
        (Obligation::Own { step, .. }, Obligation::Own { step: other, .. }) => step.0 == other.0,
        (
            Obligation::Other { step, point, .. },
            Obligation::Other {
                step: other,
                point: at,
                ..
            },
        ) => step.0 == other.0 && point.0 == at.0,
        _ => false,
    }
}

/// What is kept: at most one prefix for each number of bound names.
#[derive(Drop)]
pub struct Prefixes {
    none: Option<Prefix>,
    one: Option<Prefix>,
    more: Option<Prefix>,
}

impl Prefixes {
    /// None yet. It takes no memory.
    pub fn new() -> Prefixes
        ensures { (program : AProgram) → ArePrefixes program result }
    {
        Prefixes {
            none: None,
            one: None,
            more: None,
        }
    }

    /// Takes out the one for so many bound names.
    pub fn take(&mut self, bound: u16) -> Option<Prefix>
        ensures left { (program : AProgram) → ArePrefixes program self.old → ArePrefixes program self.new }
        ensures prefix { (program : AProgram) → ArePrefixes program self.old → IfSome result (IsPrefix program) }
    {
        match bound {
            0 => self.none.take(),
            1 => self.one.take(),
            _ => self.more.take(),
        }
    }

    /// Keeps one in place of that for as many bound names.
    pub fn put(&mut self, prefix: Prefix)
        ensures { (program : AProgram) → ArePrefixes program self.old → IsPrefix program prefix
            → ArePrefixes program self.new }
    {
        match prefix.bound {
            0 => self.none = Some(prefix),
            1 => self.one = Some(prefix),
            _ => self.more = Some(prefix),
        }
    }
}
