// The laws stand over the definitions, so that proofs above never open them.
ghost use Rattle.plc_gc.specs.Laws.{CollectedAccessesAgree, CollectedTestsHaveOpposites, GcStateLaws};
ghost use Rattle.plc_gc.specs.Ranges.{CollectedRunsKeepValues, CollectedRunsStayInRange};
ghost use Rattle.plc_gc.specs.Reached.{ClaimsAreReached};
ghost use Rattle.plc_gc.specs.RunLaws.{CollectedRunsGoOn};
ghost use Rattle.plc_gc.specs.Threads.{CollectedThreadsHoldTheirLocals};
ghost use Rattle.plc_gc.specs.Unmarked.{CollectedRunsStayUnmarked};

/// What is put into a place or a map is read back, and nothing else changes with it. A node that isn't
/// made yet reads as one that was just allocated, so an allocation changes no entry.
pub fn collected_state_reads_back()
    ensures { GcStateLaws }
{}

/// Garbage-collected runs begin, and go on by starts, by steps that aren't blocked, by returns and by
/// frees, of which none changes anything. Each move leads to one configuration at most, whatever
/// address it names, and so do the moves of a whole run.
pub fn collected_runs_go_on()
    ensures { CollectedRunsGoOn }
{}

/// In every state of every garbage-collected run, and between the primitives of a step, each pointer
/// leads to null or to a node that was made, a mark is 0 or 1, null has null, unmarked, and 0 in its
/// fields and isn't retired, and what isn't made has 0 in every map.
pub fn collected_runs_stay_in_range()
    ensures { CollectedRunsStayInRange }
{}

/// In every state of every garbage-collected run of a flow of a file that was read, and between the
/// primitives of a step, an enumerated auxiliary field has one of its values at every node.
pub fn collected_runs_keep_values()
    ensures { CollectedRunsKeepValues }
{}

/// In no state of a garbage-collected run of a flow that doesn't use marks, and nowhere between the primitives of
/// a step, is a pointer marked; so a comparison of two pointers is there one of their nodes.
pub fn collected_runs_stay_unmarked()
    ensures { CollectedRunsStayUnmarked }
{}

/// Where all claims that a step reaches are true, each is true in the state in which it is reached, and
/// the list of their truths has no `false`.
pub fn claims_are_reached()
    ensures { ClaimsAreReached }
{}

/// In every configuration of a garbage-collected run of a flow of a file that was read, each busy thread stands at
/// a point of its operation and holds that operation's locals, and an idle one holds none.
pub fn collected_threads_hold_their_locals()
    ensures { CollectedThreadsHoldTheirLocals }
{}

/// Of a test and its opposite exactly one goes, in every garbage-collected state, and a test changes nothing.
pub fn collected_tests_have_opposites()
    ensures { CollectedTestsHaveOpposites }
{}

/// The table of garbage-collected states agrees with what a primitive goes through: it is blocked exactly where that
/// pointer is null.
pub fn collected_accesses_agree()
    ensures { CollectedAccessesAgree }
{}
