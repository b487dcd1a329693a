// Where values stand, and what is known of each node. Every value is a number, and every default is 0:
// null, unmarked, the data 0, the first value of an auxiliary field, no thread (thread t is t + 1), not
// retired. So one word reads a place and one a map, and a node that isn't made reads as a fresh one.
ghost use Rattle.std.specs.Prelude.{◌≡◌};
ghost use Rattle.plc_gc.specs.State.{null_pointer, with_node, with_mark, slot, mark_slot};
ghost use Rattle.plc_gc.specs.Named.{unmarked};

use plc_lang::Var;

/// What a pointer place holds: a node, and 1 where it is marked, else 0.
#[derive(Clone, Copy)]
pub struct Pointer {
    pub node: u32,
    pub mark: u32,
}

impl Pointer {
    /// Null, unmarked.
    pub fn null() -> Pointer
        ensures { result ≡ null_pointer }
    {
        Pointer { node: 0, mark: 0 }
    }

    /// A number that has no mark.
    pub fn unmarked(n: u32) -> Pointer
        ensures { result ≡ unmarked n }
    {
        Pointer { node: n, mark: 0 }
    }

    /// With another node.
    pub fn with_node(self, n: u32) -> Pointer
        ensures { result ≡ with_node self n }
    {
        Pointer {
            node: n,
            mark: self.mark,
        }
    }

    /// With another mark.
    pub fn with_mark(self, n: u32) -> Pointer
        ensures { result ≡ with_mark self n }
    {
        Pointer {
            node: self.node,
            mark: n,
        }
    }
}

/// Where a value stands.
#[derive(Clone, Copy)]
pub enum Slot {
    /// A shared pointer.
    Shared(u16),
    /// A pointer local of thread `t`.
    Local { t: u32, v: u16 },
    /// The mark of a shared pointer.
    SharedMark(u16),
    /// The mark of a pointer local of thread `t`.
    LocalMark { t: u32, v: u16 },
    /// A data local of thread `t`.
    Data { t: u32, x: u16 },
}

/// What is known of each node.
#[derive(Clone, Copy)]
pub enum Map {
    /// The node that a pointer field holds.
    Pointer(u16),
    /// The mark of a pointer field.
    Mark(u16),
    /// The number that a data field holds.
    Number(u16),
    /// What an auxiliary field holds.
    Auxiliary(u16),
    /// 1 where the node was retired, else 0.
    Retirement,
}

/// The place of a pointer variable for thread `t`.
pub fn slot_of(t: u32, v: Var) -> Slot
    ensures { result ≡ slot t v }
{
    match v {
        Var::Shared(i) => Slot::Shared(i),
        Var::Local(v) => Slot::Local { t, v },
    }
}

/// The place of its mark.
pub fn mark_slot_of(t: u32, v: Var) -> Slot
    ensures { result ≡ mark_slot t v }
{
    match v {
        Var::Shared(i) => Slot::SharedMark(i),
        Var::Local(v) => Slot::LocalMark { t, v },
    }
}
