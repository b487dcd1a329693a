// Copies of a part, each with its number.
ghost use Rattle.std.specs.Prelude.{◌≡◌, ◌++◌, OnOk};
ghost use Rattle.plc_sample.specs.Sample.{numbered_byte, numbered, copies};

use std::alloc::{AllocError, Global};

/// A byte of a part.
fn push_byte(alloc: Global, out: &mut Vec<u8>, number: u8, byte: u8) -> Result<(), AllocError>
    ensures { OnOk result (out.new.items ≡ out.old.items ++ numbered_byte number byte) }
{
    if byte == b'#' {
        let digits = number.to_string(alloc)?;
        out.extend_from_slice(digits.as_bytes())
    } else {
        out.push(byte)?;
        Ok(())
    }
}

/// The copy of a part with this number.
fn push_numbered(alloc: Global, out: &mut Vec<u8>, number: u8, part: &str) -> Result<(), AllocError>
    ensures { OnOk result (out.new.items ≡ out.old.items ++ numbered number part.now) }
{
    for byte in part.as_bytes() {
        push_byte(alloc, out, number, *byte)?;
    }
    Ok(())
}

/// So many copies of a part, numbered from 1.
pub(crate) fn push_copies(
    alloc: Global,
    out: &mut Vec<u8>,
    count: u8,
    part: &str,
) -> Result<(), AllocError>
    ensures { OnOk result (out.new.items ≡ out.old.items ++ copies count part.now) }
{
    for made in 0..count {
        push_numbered(alloc, out, made + 1, part)?;
    }
    Ok(())
}
