// From types, and from one primitive over moves and schedules, to whole replays.
mod copying;
mod marks;
mod moves;
mod observers;
mod primitives;
mod reclaimers;
mod replays;
mod schedules;
mod suggestions;
mod texts;
mod types;
mod typings;
