// The law that what is said of a file's tokens can be said of what the file means. Whether marks are used
// is asked of tokens, before a file is read, and of its statements, once it is; the trees stand between the
// two, since a unit forgets `skip` and the order of its text.
ghost use Rattle.plc_parse.specs.Marks.{UnitsUseTheirMarks};

/// The law that tokens use marks exactly where the unit that they spell does: one of the words `mark`,
/// `unmark`, `marked` and `unmarked` is among them where a primitive of the unit or a literal of its
/// outline speaks of marks, and nowhere else.
pub fn units_use_their_marks()
    ensures { UnitsUseTheirMarks }
{}
