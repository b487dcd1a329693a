// Which bytes stand between tokens, and which go on a name, a number or a comment.
ghost use Rattle.std.specs.Prelude.{◌≡◌, ◌≤◌, length, nat_eq};
ghost use Rattle.std.specs.List.{prefix_len, starts_with};
ghost use Rattle.plc_lex.specs.Characters.{is_space, is_letter, is_digit, in_name, in_comment, comment_opening};

/// Whether a byte is a space, a tab, a carriage return or a line feed.
pub fn is_space(b: u8) -> bool
    ensures { result ≡ is_space b }
{
    matches!(b, b' ' | b'\t' | b'\r' | b'\n')
}

/// Whether a byte begins a name: a letter or `_`.
pub fn is_letter(b: u8) -> bool
    ensures { result ≡ is_letter b }
{
    matches!(b, b'a'..=b'z' | b'A'..=b'Z' | b'_')
}

/// Whether a byte is a decimal digit.
pub fn is_digit(b: u8) -> bool
    ensures { result ≡ is_digit b }
{
    b.is_ascii_digit()
}

/// Whether a byte goes on a name.
pub fn in_name(b: u8) -> bool
    ensures { result ≡ in_name b }
{
    is_letter(b) || is_digit(b)
}

/// How many bytes of a name stand at the front.
pub fn name_length(bytes: &[u8]) -> usize
    ensures value { result ≡ prefix_len in_name bytes.now }
    ensures within { result ≤ length bytes.now }
{
    bytes.iter().take_while(|b| in_name(**b)).count()
}

/// How many digits stand at the front.
pub fn digits_length(bytes: &[u8]) -> usize
    ensures value { result ≡ prefix_len is_digit bytes.now }
    ensures within { result ≤ length bytes.now }
{
    bytes.iter().take_while(|b| is_digit(**b)).count()
}

/// Whether a comment stands at the front.
pub fn opens_comment(bytes: &[u8]) -> bool
    ensures { result ≡ starts_with nat_eq bytes.now comment_opening }
{
    bytes.starts_with(b"//")
}

/// How many bytes stand before the line's end.
pub fn line_length(bytes: &[u8]) -> usize
    ensures value { result ≡ prefix_len in_comment bytes.now }
    ensures within { result ≤ length bytes.now }
{
    bytes.iter().take_while(|b| **b != b'\n').count()
}
