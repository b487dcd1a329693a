//! From bytes to the verdict, on the parser, the lowering, the inference and the solver: `load` gives the flow
//! and the outline that the bytes spell or the first refusal, `check` the verdict of the definitions, `certify`
//! what shows that a file is safe, and `open_obligations` all that breaks its outline.
#![tactic(auto)]

mod certified;
mod counterexample;
mod judged;
mod laws;
mod limits;
mod loading;
mod open;
mod outlined;
mod tree;
mod verdict;

pub use certified::{Certified, certify};
pub use counterexample::Counterexample;
pub use judged::{Judged, LoadFault, Loaded};
pub use laws::certificates_are_verified;
pub use loading::{
    end_line, files_are_unique, files_fit, files_use_their_marks, load, load_with_tokens,
};
pub use open::{OpenObligations, open_obligations};
pub use outlined::{OutlineFault, with_outline};
pub use verdict::{Typed, Verdict, check, strongest_typing};
