// That tokens begin with at most one outline, a law on the definitions alone. A function without a body carries
// it in its contract.
ghost use Rattle.plc_outparse.specs.Outlines.{OutlinesAreOne};

/// The law that a list of tokens begins with at most one outline, so that it has one meaning and one
/// rest, and that it has no fault of syntax beside: the answer that [`read_outline`](crate::read_outline)
/// gives is a function of the tokens, unless memory runs out.
pub fn outlines_are_one()
    ensures { OutlinesAreOne }
{}
