// How deep the blocks of a file stand, a law on the definitions alone. A function without a body carries it in
// its contract.
ghost use Rattle.plc_syntax.specs.Depth.{DepthIsThatOfBraces};

/// The law that a file's braces say how deep its blocks stand: none stands too deep exactly where at most
/// 64 stand within one another.
pub fn depth_is_that_of_braces()
    ensures { DepthIsThatOfBraces }
{}
