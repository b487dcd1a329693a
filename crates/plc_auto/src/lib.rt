//! When a reclaimer may free what: events, the three observers with their tables of locations, the schemes by which
//! reclaimers know them, where watchers stand for each address, and sets of locations. `step` is the written table,
//! `Locations` is its fold over the events that were heard, and the sets are what their definitions say.
#![tactic(auto)]

mod event;
mod hearing;
mod laws;
mod location_laws;
mod locations;
mod observer;
mod row;
mod scheme;
mod set_laws;
mod sets;
mod table;
mod watcher;

pub use event::{EvKind, Event};
pub use laws::{
    far_events_move_nothing, frees_follow_retirements, histories_are_judged_by_the_last,
    letters_turn, locations_follow_histories, null_is_other, retired_for_all_threads,
};
pub use location_laws::{locations_follow_observers, locations_of_threads_follow};
pub use locations::Locations;
pub use observer::Observer;
pub use scheme::{Scheme, schemes_of};
pub use set_laws::{closures_are_least, sets_grow, sets_of_locations};
pub use table::R_KEPT;
