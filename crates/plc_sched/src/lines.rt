// The lines of a file, from the front. A line feed ends a line, so nothing stands after the last one.
ghost use Rattle.std.specs.Prelude.{◌≡◌, ◌<◌, ◌≤◌, [], ◌∷◌, length, IfSome, IfNone, MatchBool};
ghost use Rattle.plc_sched.specs.Lines.{lines_of};
ghost use Rattle.plc_sched.specs.Schedules.{line_limit};

use crate::words::cut;
use plc_base::What1;

/// The first line and what stands after it, or `None` where there is no line.
pub fn next_line<'a>(bytes: &'a [u8]) -> Option<(&'a [u8], &'a [u8])>
    ensures none { IfNone result (lines_of bytes.now ≡ []) }
    ensures some { IfSome result (λ read. lines_of bytes.now ≡ read.0.now ∷ lines_of read.1.now) }
    ensures smaller { IfSome result (λ read. length read.1.now < length bytes.now) }
{
    if bytes.is_empty() {
        return None;
    }
    let (line, after) = cut(bytes, b'\n');
    match after {
        Some(after) => Some((line, after)),
        None => Some((line, &[])),
    }
}

/// Whether there are more lines than a schedule may have; counting stops there.
pub fn has_too_many_lines(bytes: &[u8]) -> bool
    ensures { MatchBool result (line_limit < length (lines_of bytes.now)) (length (lines_of bytes.now) ≤ line_limit) }
{
    let mut rest = bytes;
    let mut count = 0;
    while let Some((_, after)) = next_line(rest) {
        if count == What1::Lines.most() {
            return true;
        }
        rest = after;
        count += 1;
    }
    false
}
