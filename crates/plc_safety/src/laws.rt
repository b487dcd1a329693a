// Three laws are joined here, by their statements alone. Where an outline holds, the claims of garbage-collected
// runs are true. Erasure carries each claim over to memory as it is, with frees and with addresses that are used
// again. Under a typing a step is no race where its claims are true in memory. The first speaks of collected runs
// alone, the second of runs up to their last move, so that neither asks that the next step is no race: the one
// induction over moves is that of types, and nothing goes in a circle. Claims of locations rest on the same three:
// the type says where an address stands, and the outline, by erasure, whether it is retired.
ghost use Rattle.plc_safety.specs.ByRun.{ClaimsOfOneRunSuffice};
ghost use Rattle.plc_safety.specs.Joint.{ActiveWordsAgree, TrueGcClaimsSuffice, TypedAndHeldProgramsAreSafe};
ghost use Rattle.plc_safety.specs.Located.{LocatedClaimsAreTrue};

/// What erasure and types call an active pointer is the same in memory where null pointers are valid, as
/// in each state of a run.
pub fn active_words_agree()
    ensures { ActiveWordsAgree }
{}

/// Where the claims that the steps of one run reached are true in its own garbage-collected run, each busy
/// thread meets the environment of its point, under any typing. Where besides the claims that a further step
/// reaches are true there, no primitive of that step is a race.
pub fn claims_of_one_run_suffice()
    ensures { ClaimsOfOneRunSuffice }
{}

/// Where a flow has a typing and the claims of every garbage-collected run are true, with each number of
/// threads from 1, no step of any run is a pointer race or a second retire.
pub fn true_gc_claims_suffice()
    ensures { TrueGcClaimsSuffice }
{}

/// A program is safe that has a typing and an outline that holds: no step of any run of it is a pointer race
/// or a second retire, with any number of threads, any interleaving, any reuse of addresses and any free that
/// the observer allows. Any typing will do, one that was inferred and one that came with a certificate.
pub fn typed_and_held_programs_are_safe()
    ensures { TypedAndHeldProgramsAreSafe }
{}

/// A claim of locations is true that was judged under a typing: in every state of every run of the flow, with
/// any number of threads, any interleaving, any reuse of addresses and any free that the observer allows, the
/// address that the pointer local holds at the label, where it isn't null, stands for its thread in one of the
/// locations of the claim. This asks that each claim follows from the type of its local there, alone or with
/// what the claim adds to the outline, and that the outline holds with what all of them add.
pub fn located_claims_are_true()
    ensures { LocatedClaimsAreTrue }
{}
