// What the reclaimers of this crate make of any program: histories that their observers allow. A
// function without a body carries a law in its contract, so that it is proved where the rows are.
ghost use Rattle.plc_reclaim.specs.Laws.{EpochMakesAllowedHistories, HazardMakesAllowedHistories, RowsAskEveryThread};

/// A thread that no event names keeps no address, so that a row asks every thread there is.
pub fn rows_ask_every_thread()
    ensures { RowsAskEveryThread }
{}

/// Where each event is handed to a reclaimer that acts as `hazard`, and each free comes directly after
/// its pick, the history is allowed by `plain` and by the observer of each Hazard scheme.
pub fn hazard_makes_allowed_histories()
    ensures { HazardMakesAllowedHistories }
{}

/// Where each event is handed to a reclaimer that acts as `epoch`, and each free comes directly after
/// its pick, the history is allowed by `plain` and by the observer of each Epoch scheme.
pub fn epoch_makes_allowed_histories()
    ensures { EpochMakesAllowedHistories }
{}
