// The laws stand over the definitions of ground sets and of garbage-collected runs, whatever the code does, and a
// proof above cites them by their statements.
ghost use Rattle.std.specs.Prelude.{ℕ};
ghost use Rattle.plc_flow.specs.declared.flow.Flow.{Flow};
ghost use Rattle.plc_logic.specs.declared.clause.Outline.{Outline};
ghost use Rattle.plc_vocabulary.specs.Fit.{Fits};
ghost use Rattle.plc_outline_sound.specs.Held.{HeldOutlinesAreTrue, HeldClaimsAreTrue};

/// Where the ground set of no obligation has a model, every invariant, every clause of the point of a busy
/// thread and every claim that a step reaches is true in every configuration of every garbage-collected run.
pub fn held_outlines_are_true()
    ensures { (flow : Flow) (outline : Outline) (threads : ℕ)
        → Fits flow outline → HeldOutlinesAreTrue flow outline threads }
{}

/// So every claim that a step of a garbage-collected run reaches is true.
pub fn held_claims_are_true()
    ensures { (flow : Flow) (outline : Outline) (threads : ℕ)
        → Fits flow outline → HeldClaimsAreTrue flow outline threads }
{}
