// The laws stand over the definitions, so that proofs above never open them.
ghost use Rattle.plc_flow.specs.Laws.{EveryStepStaysInItsGate, FlowsFit, LoweringKeepsMarks, OppositesAreTests};

/// The flow of every file that was read and that has at most 4,096 points can be run; each thing in
/// it stands where its kind may stand, and the l-th labelled point is a point of the operation whose
/// statements have label l.
pub fn flows_fit()
    ensures { FlowsFit }
{}

/// A step that leaves a point of an operation is of that operation, and leads to a point of it.
pub fn steps_stay_in_their_gate()
    ensures { EveryStepStaysInItsGate }
{}

/// The opposite of a test is a test, whose opposite is the first; no test is a claim. That exactly one of the two goes
/// in each state is a law of each meaning of memory.
pub fn opposites_are_tests()
    ensures { OppositesAreTests }
{}

/// A flow uses marks exactly where its file does, each file alike: lowering keeps each primitive that speaks of marks,
/// and puts no other one beside it but the opposite of a mark test, on the other side of its `if`.
pub fn lowering_keeps_marks()
    ensures { LoweringKeepsMarks }
{}
