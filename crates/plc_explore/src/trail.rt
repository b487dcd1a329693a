// A run that was found, as a list of moves.
use plc_base::Items;
use plc_moves::Move;

/// The moves of a run among so many threads, from where runs begin. The last of them is a race. Where a reclaimer picks
/// what is freed, a free stands for asking it.
#[derive(Drop)]
pub struct Trail {
    pub threads: u32,
    pub moves: Items<Move>,
}
