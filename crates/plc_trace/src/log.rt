// What is written while the lines of a schedule are taken.
use plc_html::Html;
use std::alloc::Global;

/// What is written while the lines are taken.
#[derive(Drop)]
pub(crate) struct Log {
    /// A row for each line that is shown.
    pub(crate) rows: Html,
    /// What is said of the last line.
    pub(crate) ending: Html,
    /// What is there after it.
    pub(crate) after: Html,
    /// By which line of the schedule each event was heard.
    pub(crate) heard: Vec<u32>,
    /// The line of the file of the last step that was shown; 0 where there is none.
    pub(crate) here: u32,
}

impl Log {
    /// Nothing is written yet.
    pub(crate) fn new(alloc: Global) -> Log {
        Log {
            rows: Html::new(alloc),
            ending: Html::new(alloc),
            after: Html::new(alloc),
            heard: Vec::new(alloc),
            here: 0,
        }
    }
}
