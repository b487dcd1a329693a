//! What decides when an address is freed: reclaimers, each of which picks the next address from the
//! events that it was handed. The trait `Reclaimer` says by its meanings what one does, so that a
//! replay under any reclaimer is pinned, and each reclaimer of this crate promises that it acts as its
//! row. `hazard` and `epoch` free nothing that their observers forbid, whatever threads do: that is a
//! law on their rows. The crate stands on the events and observers of `plc_auto`.
#![tactic(auto)]

mod by_tables;
mod laws;
mod leak;
mod lookup;
mod reclaimer;
mod serving;

pub use laws::{
    epoch_makes_allowed_histories, hazard_makes_allowed_histories, rows_ask_every_thread,
};
pub use leak::Leak;
pub use lookup::find_named;
pub use reclaimer::Reclaimer;
pub use serving::{ByList, Epoch, Hazard};
