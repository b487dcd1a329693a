// What a pointer place holds, and what a primitive answers. Validity is a bit beside the number: a
// place that was made invalid by a free stays so when its address is allocated again. No generation
// of an address is counted.
ghost use Rattle.std.specs.Prelude.{◌≡◌};
ghost use Rattle.plc_mem.specs.State.{null_cell, fresh_cell, marked_cell, is_null, same_pointer};
ghost use Rattle.plc_mem.specs.Primitives.{access, comparison};

use plc_auto::Event;
use plc_base::same_bool;

/// A pointer value, that is a number with a mark, and its validity; the number 0 is null, and null is
/// valid, marked or not.
#[derive(Clone, Copy)]
pub struct Cell {
    pub number: u32,
    pub mark: bool,
    pub valid: bool,
}

/// A race of a primitive. The first three are pointer races, the last is a second retire.
#[derive(Clone, Copy, Debug, PartialEq, Eq)]
pub enum RaceKind {
    /// An access through an invalid pointer.
    Deref,
    /// A comparison with an invalid pointer.
    Compare,
    /// An invalid pointer passed to `retire`.
    Pass,
    /// A retire of an address that is retired already.
    Double,
}

/// What a primitive answers.
#[derive(Clone, Copy)]
pub enum Outcome {
    /// It succeeded, with its event if observers hear it.
    Next(Option<Event>),
    /// It can't be taken here, and changed nothing.
    Blocked,
    /// It is a race, and changed nothing.
    Race(RaceKind),
}

impl Cell {
    /// Null.
    pub fn null() -> Cell
        ensures { result ≡ null_cell }
    {
        Cell {
            number: 0,
            mark: false,
            valid: true,
        }
    }

    /// A pointer to an address that was just allocated.
    pub fn fresh(a: u32) -> Cell
        ensures { result ≡ fresh_cell a }
    {
        Cell {
            number: a,
            mark: false,
            valid: true,
        }
    }

    /// The same pointer, valid or not, with this mark.
    pub(crate) fn marked(self, mark: bool) -> Cell
        ensures { result ≡ marked_cell mark self }
    {
        Cell { mark, ..self }
    }

    /// Whether it is null.
    pub fn is_null(self) -> bool
        ensures { result ≡ is_null self }
    {
        self.number == 0
    }

    /// Whether both hold the same number and the same mark, valid or not.
    pub fn same_pointer(self, other: Cell) -> bool
        ensures { result ≡ same_pointer self other }
    {
        self.number == other.number && same_bool(self.mark, other.mark)
    }

    /// The race of an access through it.
    pub fn access(self) -> Option<RaceKind>
        ensures { result ≡ access self }
    {
        if self.valid {
            None
        } else {
            Some(RaceKind::Deref)
        }
    }

    /// The race of a comparison of the two.
    pub fn comparison(self, other: Cell) -> Option<RaceKind>
        ensures { result ≡ comparison self other }
    {
        if self.valid && other.valid {
            None
        } else {
            Some(RaceKind::Compare)
        }
    }
}
