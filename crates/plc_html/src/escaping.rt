// What stands for a text in a page. Bytes from 128 on stay as they are: they spell the letters of other languages in
// comments, and none of them is a byte of markup.
ghost use Rattle.std.specs.Prelude.{◌≡◌, ℕ, List, OnErr, OnOk, ◌++◌, false};
ghost use Rattle.std.specs.List.{list_any};
ghost use Rattle.plc_html.specs.Escaping.{escaped, escaped_byte, is_markup};

use std::alloc::AllocError;

/// Adds what stands for a byte. Where memory runs out nothing is added.
pub(crate) fn push_escaped(out: &mut Vec<u8>, byte: u8) -> Result<(), AllocError>
    ensures ok { OnOk result (out.new.items ≡ out.old.items ++ escaped_byte byte) }
    ensures err { OnErr result (out.new.items ≡ out.old.items) }
{
    match byte {
        b'&' => out.extend_from_slice(b"&amp;"),
        b'<' => out.extend_from_slice(b"&lt;"),
        b'>' => out.extend_from_slice(b"&gt;"),
        b'"' => out.extend_from_slice(b"&quot;"),
        b'\'' => out.extend_from_slice(b"&#39;"),
        b'\t' | b'\n' => out.extend_from_slice(&[byte]),
        0..=31 | 127 => out.extend_from_slice(b"?"),
        _ => out.extend_from_slice(&[byte]),
    }
}

/// Adds what stands for a text.
pub(crate) fn push_text(out: &mut Vec<u8>, bytes: &[u8]) -> Result<(), AllocError>
    ensures { OnOk result (out.new.items ≡ out.old.items ++ escaped bytes.now) }
{
    for byte in bytes {
        push_escaped(out, *byte)?;
    }
    Ok(())
}

/// The law that in what stands for a text no byte begins or ends a tag or a quoted value.
pub fn escaped_text_has_no_markup()
    ensures { (bytes : List ℕ) → list_any is_markup (escaped bytes) ≡ false }
{}
