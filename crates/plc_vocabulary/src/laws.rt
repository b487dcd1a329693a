// Laws of settings: what the ground sets that are made of them rest on.
ghost use Rattle.plc_vocabulary.specs.Numbers.{AllNumbersFit};
ghost use Rattle.plc_vocabulary.specs.WellSorted.{AllActsFit, AllNodesFit};

/// The constants that an act names have the sorts that its row of the table asks. What a setting lists as nodes has
/// the sort of nodes, and the constants of data locals are numbers.
pub fn settings_are_well_sorted()
    ensures acts { AllActsFit }
    ensures nodes { AllNodesFit }
{}

/// The numbers of a file ascend, each once, and are those that stand in it.
pub fn numbers_fit()
    ensures { AllNumbersFit }
{}
