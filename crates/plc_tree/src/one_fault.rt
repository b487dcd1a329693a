// What the layers above use of the syntax, a law on the definitions alone. A function without a body
// carries it in its contract; it stands here, since it is proved by the reader.
ghost use Rattle.plc_syntax.specs.Faults.{SyntaxFaultsAreOne};

/// The law that a list of tokens has at most one fault of syntax or of nesting, at one place, and then
/// is no file whose blocks are within the limit; and that an outline is missing at one place.
pub fn syntax_faults_are_one()
    ensures { SyntaxFaultsAreOne }
{}
