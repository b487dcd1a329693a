// A text grows at its end, piece by piece; it is built whole before any of it is written.
ghost use Rattle.std.specs.Prelude.{◌≡◌, ◌++◌, OnOk, decimal};

use std::alloc::AllocError;

/// Adds a piece at the end of a text. It fails only where memory runs out.
pub fn push(out: &mut Vec<u8>, text: &str) -> Result<(), AllocError>
    ensures { OnOk result (out.new.items ≡ out.old.items ++ text.now) }
{
    out.extend_from_slice(text.as_bytes())
}

/// Adds a name, or another text of bytes, at the end of a text. It fails only where memory runs out.
pub fn push_bytes(out: &mut Vec<u8>, bytes: &[u8]) -> Result<(), AllocError>
    ensures { OnOk result (out.new.items ≡ out.old.items ++ bytes.now) }
{
    out.extend_from_slice(bytes)
}

/// Adds a number in decimal at the end of a text. It fails only where memory runs out.
pub fn push_number(out: &mut Vec<u8>, number: u64) -> Result<(), AllocError>
    ensures { OnOk result (out.new.items ≡ out.old.items ++ decimal number) }
{
    let digits = number.to_string(*out.allocator())?;
    out.extend_from_slice(digits.as_bytes())
}

/// Adds words, and then a number in decimal, at the end of a text. It fails only where memory runs out.
pub fn push_numbered(out: &mut Vec<u8>, words: &str, number: u32) -> Result<(), AllocError>
    ensures { OnOk result (out.new.items ≡ out.old.items ++ words.now ++ decimal number) }
{
    push(out, words)?;
    push_number(out, u64::from(number))
}
