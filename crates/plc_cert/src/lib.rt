//! Certificates as JSON: what `write` writes, `read` reads as it was, but for the types of shared
//! pointers, which the text doesn't have.
//!
//! A certificate shows that a file is safe: an environment for each point and a tree for each
//! obligation. Whether it is valid for a file is judged elsewhere; here is its form alone, which
//! docs/formats.md states. Both directions follow definitions of their own, `specs/Written.antt` from
//! certificates to JSON values and `specs/Shape.antt` back, so that one format stands there twice; the
//! laws of the crate say that the two agree. The crate stands on `plc_type` for environments, on
//! `plc_ground` for trees and on `serde_json` for JSON.
#![tactic(auto)]

mod cert;
mod env;
mod laws;
mod node;
mod number;
mod part;
mod reading;
mod writing;

pub use cert::{Cert, CertFault, CertField};
pub use laws::{each_text_has_its_answer, line_is_read, only_written_is_read, written_is_read};
pub use reading::read;
pub use writing::write;
