// What is claimed of a pointer local.
use plc_base::Mask;

/// A claim: at a label, a pointer local that isn't null stands in one of these locations of the file's observer.
#[derive(Clone, Copy, Debug, PartialEq, Eq)]
pub struct LocationClaim {
    /// The number of the label, in the order of the text.
    pub label: u16,
    /// The number of the local among the pointer locals of the label's operation.
    pub local: u16,
    /// The locations, as a set.
    pub set: Mask,
}
