// The laws stand over the definitions, so that proofs above never open them.
ghost use Rattle.plc_mem.specs.Laws.{AccessesAgree, MemoryLaws, TestsHaveOpposites};
ghost use Rattle.plc_mem.specs.Coherence.{CoherenceIsKept};

/// What is written at a place that is there is read back, and no other place, number, use or
/// retirement changes with it; a node that was just allocated is null; a free leaves each number,
/// makes invalid exactly the places that hold the address, and takes it out of the used and the
/// retired addresses.
pub fn memory_reads_back()
    ensures { MemoryLaws }
{}

/// A state is coherent where each valid pointer that isn't null holds a used address, null is valid
/// and unused, and what isn't used isn't retired. The first state is so, and each primitive that is
/// no race, each free, each start and each return keeps it so.
pub fn coherence_is_kept()
    ensures { CoherenceIsKept }
{}

/// Of a test and its opposite exactly one goes, in every state, and one is a race where the other is. So
/// of the two sides of an `if` exactly one is open. A test changes nothing, and no observer hears it.
pub fn tests_have_opposites()
    ensures { TestsHaveOpposites }
{}

/// The table of memory agrees with what a primitive goes through and compares: an access is a race through an invalid
/// pointer alone, and blocked through null; a comparison is a race where one of the two is invalid; of the others,
/// calls alone may be races.
pub fn accesses_agree()
    ensures { AccessesAgree }
{}
