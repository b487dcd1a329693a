//! Claims that a pointer local stands in certain locations of the observer: `read_claims` reads them for a file, and
//! `extend` adds to the file's outline what they need beyond the types, so that where the extended outline holds each
//! claim is true in every run (`plc_safety`).
#![tactic(auto)]

mod adding;
mod claim;
mod extension;
mod fault;
mod names;
mod needs;
mod reading;

pub use claim::LocationClaim;
pub use extension::extend;
pub use fault::{AtFault, ClaimFault};
pub use reading::{claim_faults_are_one, read_claims};
