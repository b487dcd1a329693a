//! Certificates judged: `verify` answers Ok exactly where a certificate has the version of the file, its environments
//! are a typing and its trees close the ground sets of the obligations, and else the first item that fails, in a fixed
//! order.
//!
//! It doesn't know who wrote the certificate or how: it stands on the typing rules, the obligations and the judge of
//! trees, and on neither the inference nor the solver. So whoever trusts the answer needn't trust these two, and a
//! certificate from elsewhere is as good as one from `certify`.
#![tactic(auto)]

mod environments;
mod fault;
mod judging;
mod laws;
mod steps;
mod trees;
mod typing;
mod version;

pub use fault::{Slot, VerifyFault};
pub use judging::verify;
pub use laws::valid_certificates_prove;
pub use version::certificate_version;
