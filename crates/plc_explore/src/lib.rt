//! Draws runs of a program until one races, and makes that run short. What is found is a run of the definition whose
//! last move is a race (`explore`), and so is what is made short of it, which has no more moves and, where any free may
//! come that is allowed, no part of one thread's moves that could be left out (`shorten`).
//!
//! A run is drawn as in probabilistic concurrency testing (Burckhardt and others, ASPLOS 2010): the first thread moves
//! that can, in an order that changes at a few moves. Addresses are used again as soon as they can be, since that is
//! how a stale pointer meets a new node.
#![tactic(auto)]

mod account;
mod exploring;
mod follow;
mod frees;
mod order;
mod outlook;
mod plan;
mod pointers;
mod program;
mod random;
mod running;
mod shortening;
mod trail;
mod walker;

pub use account::{Account, Lines, follow_to_race};
pub use exploring::{Explored, explore};
pub use frees::Frees;
pub use program::{Program, numbers_in};
pub use random::Random;
pub use shortening::shorten;
pub use trail::Trail;
