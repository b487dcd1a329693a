//! The frame of a page, and its parts, which grow piece by piece, on lists of bytes alone. A part is a list of listed
//! tags and of text in which no byte is markup, whatever a caller passes: that is the invariant of `Html`. So no byte
//! of a file that is shown can begin or end a tag, and what stands on a page beside its parts, the badge above all, is
//! what `whole_page` says. Of all these texts none is one by which a page would fetch or run (`pages_fetch_nothing`).
#![tactic(auto)]

mod badges;
mod escaping;
mod frame;
mod html;
mod tag;
mod tags;

pub use escaping::escaped_text_has_no_markup;
pub use frame::{Subject, pages_fetch_nothing, whole_page};
pub use html::Html;
pub use tag::{At, Detour, Tag};
