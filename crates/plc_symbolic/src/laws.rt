// A law on the definitions alone. Its proof is the contract of an empty function.
ghost use Rattle.plc_symbolic.specs.Drafts.{DraftsAreWellFormed};

/// Whatever terms are listed and whatever clauses are written, in any order: with sorts that fit, the set of the
/// draft keeps the rules of ground sets. No term stands twice, each argument stands before what is applied to it,
/// and literals stand between listed terms of one sort.
pub fn drafts_are_well_formed()
    ensures { DraftsAreWellFormed }
{}
