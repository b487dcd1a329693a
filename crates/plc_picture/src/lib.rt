//! Pictures of an open obligation: the state of its model before the step and after it, as nodes with what points to
//! them and what their fields hold, each drawn as SVG and as a table. Nothing is judged here, and nothing is added:
//! what a picture shows are the classes that the model gives to terms.
#![tactic(auto)]

mod applications;
mod boxes;
mod called;
mod layout;
mod nodes;
mod picture;
mod pictures;
mod pieces;
mod pointers;
mod scene;
mod state;
mod svg;
mod table;
mod texts;

pub use picture::{Name, NodeBox, Picture, Row, Value};
pub use pictures::before_and_after;
pub use svg::push_svg;
pub use table::push_table;
