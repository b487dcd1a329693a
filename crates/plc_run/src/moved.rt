// What a move comes to.
use plc_mem::RaceKind;

/// The answer of a move.
#[derive(Clone, Copy, Debug, PartialEq, Eq)]
pub enum Moved {
    /// It happened.
    Done,
    /// The step is a race at this primitive of it, which ends the run.
    Race { kind: RaceKind, prim: u16 },
    /// There is no such move here, or a race has ended the run.
    Blocked,
    /// The reclaimer may not free this address yet, which is the one that the move names.
    Forbidden { a: u32 },
}
