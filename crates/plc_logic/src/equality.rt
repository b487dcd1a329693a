// The equality of sorts, by which layers above look whether a term fits.
ghost use Rattle.plc_logic.specs.Sorts.{SameSortIsEquality};

/// The law that the program's test of equality of sorts holds of equal sorts, and of no others.
pub fn same_sort_is_equality()
    ensures { SameSortIsEquality }
{}
