// A text is built whole and then written by a loop over `put`. A sink may take a part of a piece
// only, so the loop goes on with the rest; every turn takes at least one byte, so it ends. std's
// `write_all` would do the same, but says little of what was written before an error.
ghost use Rattle.std.specs.Prelude.{◌≡◌, ◌<◌, length, OnOk, OnErr, IsErrOf};
ghost use Rattle.plc_outside.specs.Outside.{PutHasCause, Appends, AppendsPart};

use crate::sinks::{Sink, SinkFault};

/// Writes the whole text, in as many pieces as the sink wants.
///
/// An error is the sink's own, with its cause; then a prefix of the text was written that is
/// shorter than the text. `Failed` comes only where the text is longer than the sink's room, and leaves none of it.
pub fn write_text<S: Sink>(out: &mut S, text: &[u8]) -> Result<(), SinkFault>
    ensures ok { OnOk result (Appends (S.known out.old) (S.known out.new) text.now) }
    ensures err { OnErr result (AppendsPart (S.known out.old) (S.known out.new) text.now) }
    ensures cause { PutHasCause (S.known out.old).faults (S.known out.new).faults result }
    ensures room { IsErrOf result SinkFault.Failed → (S.known out.old).room < length text.now }
    ensures filled { IsErrOf result SinkFault.Failed → (S.known out.new).room ≡ 0 }
{
    let mut done: usize = 0;
    while done < text.len() {
        match out.put(&text[done..]) {
            Ok(count) => done += count,
            Err(fault) => return Err(fault),
        }
    }
    Ok(())
}
