//! Pages that show what `check` answers to a file: the file with its steps, what is known at each point, and what the
//! answer is about, in the file's own words. It judges nothing: it stands on the crates on which `check` stands. A page
//! is framed as `plc_html` says, round the text that `plc check` writes, whose status and first word choose the badge
//! (`file_page`).
//!
//! `plain_lines` says the same in lines for editors and tools.
#![tactic(auto)]

mod listing;
mod page;
mod plain;
mod points;
mod refused;
mod shown;
mod types;
mod unproved;
mod untyped;

pub use listing::{push_file, push_numbered_lines};
pub use page::{Page, file_page, page_of, refused_page};
pub use plain::{Lines, plain_lines};
