// The laws stand over the definitions of texts, trees and units, whatever the code does.
ghost use Rattle.plc_print.specs.Laws.{CanonicalTreesReadBack, TextIsReadBack, CanonicalTextReadsBack};

/// Tokens, each of which can stand in a text, are read back from their text.
pub fn tokens_read_back()
    ensures { TextIsReadBack }
{}

/// The canonical tree of a unit that was read from a tree means the same unit, but for lines. Where no
/// block stands too deep in the first tree and each of its tokens can stand in a text, so it is in the
/// canonical tree.
pub fn canonical_trees_read_back()
    ensures { CanonicalTreesReadBack }
{}

/// Whoever reads the canonical text of a unit that was read from a text gets the same unit again, but
/// for lines.
pub fn canonical_texts_read_back()
    ensures { CanonicalTextReadsBack }
{}
