// A schedule says which thread moves and which of its possible steps it takes; operations alone go by
// their names. So it is read without the program, and a replay alone says which entries are possible.
use plc_base::Items;

/// One move of a recorded run.
#[derive(Drop)]
pub enum Entry {
    /// Thread `t` begins the operation named `op`, a name of 1 to 64 bytes, with at most 32 arguments.
    Start {
        t: u32,
        op: Items<u8>,
        args: Items<u32>,
    },
    /// Thread `t` takes the `nth` of its possible steps. A step that allocates gets the address `addr`, 1 to 4096.
    Step {
        t: u32,
        nth: u16,
        addr: Option<u32>,
    },
    /// Thread `t` returns from its operation.
    Return {
        t: u32,
    },
    /// The reclaimer is asked for an address to free.
    Tick,
}

/// A recorded run: how many threads there are, 1 to 64, and its moves in order, at most 99,999. The
/// thread of each entry is below `threads`. Entry i stands on line i + 2.
#[derive(Drop)]
pub struct Schedule {
    pub threads: u32,
    pub entries: Items<Entry>,
}
