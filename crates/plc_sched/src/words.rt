// A line is read word by word, and a file line by line, each as the piece up to the next mark. What is
// after the mark stays a slice of the file, so that nothing is copied, however long a piece is.
ghost use Rattle.std.specs.Prelude.{◌≡◌, ◌==◌, ◌<◌, ◌≤◌};
ghost use Rattle.std.specs.Prelude.{[], ◌∷◌, length, not, IfSome, IfNone};
ghost use Rattle.std.specs.List.{prefix_len, slice_split};
ghost use Rattle.plc_sched.specs.Words.{pieces_after, words_left};

/// The words of a line that are still to be read. After the last word of a line nothing is left;
/// after a space there always is a word, which may be empty.
#[derive(Clone, Copy)]
pub struct Words<'a> {
    pub left: Option<&'a [u8]>,
}

/// How many bytes stand before the first mark.
fn piece_length(bytes: &[u8], mark: u8) -> usize
    ensures value { result ≡ prefix_len (λ b. not (b == mark)) bytes.now }
    ensures within { result ≤ length bytes.now }
{
    bytes.iter().take_while(|b| **b != mark).count()
}

/// What stands before the first mark, and what stands after it if there is one.
pub fn cut<'a>(bytes: &'a [u8], mark: u8) -> (&'a [u8], Option<&'a [u8]>)
    ensures pieces { slice_split (λ b. b == mark) bytes.now ≡ result.0.now ∷ pieces_after mark result.1 }
    ensures smaller { IfSome result.1 (λ rest. length rest.now < length bytes.now) }
{
    let (piece, rest) = bytes.split_at(piece_length(bytes, mark));
    match rest {
        [] => (piece, None),
        [_, after @ ..] => (piece, Some(after)),
    }
}

/// The next word and those after it, or `None` where none is left.
pub fn next_word<'a>(words: Words<'a>) -> Option<(&'a [u8], Words<'a>)>
    ensures none { IfNone result (words_left words.entry ≡ []) }
    ensures some { IfSome result (λ read. words_left words.entry ≡ read.0.now ∷ words_left read.1) }
{
    let (word, left) = cut(words.left?, b' ');
    Some((word, Words { left }))
}
