// A claim only adds to what is known: the more claims stand in front of a step, the lower the environment that it
// leads to, and a condition that holds in an environment holds in each one below it. So a typing of a program with
// some claims is one of the program with more.
ghost use Rattle.plc_suggest.specs.Suggestions.{SuggestionsAreMinimal};

/// The needed spots are one set, none of them can be left out, and where a claim at every spot isn't enough no set of
/// spots is.
pub fn suggestions_are_minimal()
    ensures { SuggestionsAreMinimal }
{}
