// That outlines fit their files, a law on the definitions alone. A function without a body carries it in its
// contract, so that it is proved where the meaning of outlines is.
ghost use Rattle.plc_outparse.specs.Fit.{OutlinesFit};

/// The law that an outline which has a meaning fits its file: it is within the limits, what its clauses
/// name is there, both sides of an equation have one sort, no invariant names a local or a thread, and
/// the labels of an item stand in one operation.
pub fn outlines_fit()
    ensures { OutlinesFit }
{}
