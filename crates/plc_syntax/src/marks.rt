// Which tokens say that a file uses marks, a law on the definitions alone. A function without a body carries it
// in its contract.
ghost use Rattle.plc_syntax.specs.Marks.{TreesSpellTheirMarks};

/// The law that the tokens of a file use marks exactly where its tree does: where its init block or an
/// operation assigns `mark p` or `unmark p` or tests `marked p` or `unmarked p`, or where a literal of
/// its outline says or denies `marked`. So what is said of tokens can be said of a file's meaning.
pub fn trees_spell_their_marks()
    ensures { TreesSpellTheirMarks }
{}
