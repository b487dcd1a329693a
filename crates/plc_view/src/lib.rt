//! The command line of `plc-show`: the page of a file, the page of a recorded run, or lines for editors, by the words
//! that are given. It reads and writes as `plc` does (`plc_cli`), and ends with the status of the answer that it shows:
//! `show` promises for all words which text is due, with its status, to which of two sinks it goes, that of answers or
//! that of what keeps from one, and how far it was written.
//! What a page says is promised by `plc_page` and `plc_trace`, which make it.
#![tactic(auto)]

mod own;
mod showing;
mod words;

pub use own::show;
