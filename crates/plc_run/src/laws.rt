// The laws stand over the definitions, so that proofs above never open them.
ghost use Rattle.plc_run.specs.Laws.{RunsGoOn, EveryRunIsObserved, ThreadsHoldTheirLocals, EveryInitIsQuiet};

/// Every flow has runs: they begin, an idle thread starts any operation, a step whose primitives
/// succeed is taken, a thread at an exit returns, and an address is freed exactly where the longer
/// history is allowed. Each move leads to one configuration at most, and none follows a race.
pub fn runs_go_on()
    ensures { RunsGoOn }
{}

/// In every state of every run, and between the primitives of a step, an address is retired exactly
/// where the observer's location of it says so, for every thread; a valid pointer that isn't null
/// holds a used address, what isn't used isn't retired, and the history is allowed.
pub fn runs_are_observed()
    ensures { EveryRunIsObserved }
{}

/// In every configuration of a run of a flow whose primitives name what is there, each busy thread
/// stands at a point of its operation and holds that operation's locals, and an idle one holds none.
pub fn threads_hold_their_locals()
    ensures { ThreadsHoldTheirLocals }
{}

/// The `init` of a flow of a file that was read is never a race, and nothing is heard of it: runs
/// begin with an empty history, and `NoStart` comes exactly where `init` is blocked.
pub fn init_is_quiet()
    ensures { EveryInitIsQuiet }
{}
