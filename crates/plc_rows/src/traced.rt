// What all rows of a run are about.
use plc_auto::Observer;
use plc_base::NoMemory;
use plc_flow::{Flow, StepsByPoint};

/// What writing a part of a page answers: nothing, or that memory runs out.
pub type Written = Result<(), NoMemory>;

/// How many threads have a column of their own.
pub(crate) const MOST_COLUMNS: u32 = 8;

/// A program whose run is shown.
#[derive(Clone, Copy)]
pub struct Traced<'a> {
    pub flow: &'a Flow,
    /// The observer by which frees are judged.
    pub observer: &'a Observer,
    /// The steps that leave each point.
    pub steps: &'a StepsByPoint,
    /// How many threads there are.
    pub threads: u32,
}
