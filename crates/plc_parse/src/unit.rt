// What a file spells: the file with its names looked up, its observer and its outline.
use plc_auto::Observer;
use plc_lang::File;
use plc_logic::Outline;

/// A file that was read.
#[derive(Drop)]
pub struct Unit {
    /// The file, each name a number.
    pub file: File,
    /// What says when the reclaimer may free: `plain` where none is named.
    pub observer: Observer,
    /// What is said of the nodes: nothing, at depth 0, where no outline stands.
    pub outline: Outline,
}
