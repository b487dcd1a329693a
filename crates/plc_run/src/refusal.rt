// Why there is no such move, for who asks after a move was blocked. A configuration answers a move without it, since a
// run needs no more than that it is blocked.

/// Why there is no such move: the first cause in the order in which a move is looked at.
#[derive(Clone, Copy, Debug, PartialEq, Eq)]
pub enum Refusal {
    /// A race has ended the run.
    Ended,
    /// There is no such thread.
    NoThread,
    /// The thread is in an operation, so it starts none.
    Busy,
    /// There is no such operation.
    NoOperation,
    /// The operation has another number of parameters.
    Arguments,
    /// The thread is in no operation, so it takes no step and doesn't return.
    Idle,
    /// Fewer steps leave the point where the thread stands.
    NoStep,
    /// The step has a `new`, and the move names no address.
    NoAddress,
    /// The step has no `new`, and the move names an address.
    NotAllocating,
    /// This primitive of the step is blocked.
    Blocked { prim: u16 },
    /// The thread doesn't stand at the exit of its operation.
    NotAtExit,
    /// Null can't be freed.
    Null,
}
