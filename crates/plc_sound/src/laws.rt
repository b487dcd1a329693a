// The law speaks of one run with any number of threads, and of one move at a time: where runs begin each
// busy thread meets its environment, an own start gives it, and a move keeps it. An induction that needs
// more, as one that also shows that the claims are true, runs over moves itself and cites this statement. The law for
// whole runs follows from it by induction over their moves. Both stand over the definitions, whatever the code does.
ghost use Rattle.plc_sound.specs.Laws.{SoundnessOfTypes, TrueClaimsSuffice};

/// Under a typing each busy thread of a run meets an environment below that of its point, and so that
/// of the point: it does so where it starts, and each move keeps it so whose claims are true. So no
/// primitive of a further step whose claims are true is a race, in any run, with any number of threads,
/// any reuse of addresses and any free that the observer allows.
pub fn types_are_sound()
    ensures { SoundnessOfTypes }
{}

/// Where a flow has a typing and each claim that a run reaches is true, no step of any run is a pointer
/// race or a second retire, with any number of threads, any interleaving, any reuse of addresses and any
/// free that the observer allows.
pub fn true_claims_suffice()
    ensures { TrueClaimsSuffice }
{}
