// The text of a sample, whole or without one line.
ghost use Rattle.std.specs.Prelude.{◌≡◌, ◌≤◌, ◌+◌, ◌++◌, IfOk, OnOk, length};
ghost use Rattle.plc_base.specs.FileSizes.{largest_file};
ghost use Rattle.plc_base.specs.Bounds.{most_copies};
ghost use Rattle.plc_sample.specs.Numbers.{sample_lines};
ghost use Rattle.plc_sample.specs.Sample.{whole_text, kept_byte, without_from, sample_text, lines_out};
ghost use Rattle.plc_lex.specs.Stops.{line_feeds};

use crate::numbering::push_copies;
use crate::parts::{clauses, declarations, ending, invariants, operations};
use plc_base::NoMemory;
use std::alloc::{AllocError, Global};

/// How many lines a sample with so many copies has.
pub fn lines_of(copies: u32) -> u32
    requires { copies ≤ most_copies }
    ensures { result ≡ sample_lines copies }
{
    44 * copies + 13
}

/// The text with so many copies of the operations, no line left out.
fn whole_text(alloc: Global, copies: u8) -> Result<Vec<u8>, AllocError>
    ensures { IfOk result (λ text. text.items ≡ whole_text copies) }
{
    let mut out = Vec::new(alloc);
    out.extend_from_slice(declarations().as_bytes())?;
    push_copies(alloc, &mut out, copies, operations())?;
    out.extend_from_slice(invariants().as_bytes())?;
    push_copies(alloc, &mut out, copies, clauses())?;
    out.extend_from_slice(ending().as_bytes())?;
    Ok(out)
}

/// A byte of a line, where that isn't the line that is left out.
fn push_kept(out: &mut Vec<u8>, without: usize, line: usize, byte: u8) -> Result<(), AllocError>
    ensures { OnOk result (out.new.items ≡ out.old.items ++ kept_byte without line byte) }
{
    if line != without {
        out.push(byte)?;
    }
    Ok(())
}

/// The text without one of its lines, counted from 1; whole where that is 0.
fn without_line(alloc: Global, text: &[u8], without: usize) -> Result<Vec<u8>, AllocError>
    ensures { IfOk result (λ kept. kept.items ≡ without_from without 1 text.now) }
{
    let mut out = Vec::new(alloc);
    let mut line = 1;
    for byte in text {
        push_kept(&mut out, without, line, *byte)?;
        if *byte == b'\n' {
            line += 1;
        }
    }
    Ok(out)
}

/// The sample with `k` copies of the operations, from 1 to `MOST_COPIES`, without line `n`, which is one of its
/// [`lines_of`] counted from 1, or whole where `n` is 0. It has that many lines, or one fewer, each ended by a line
/// feed, and is short enough for a file. The one error is that memory runs out.
pub fn text(alloc: Global, k: u8, n: u16) -> Result<Vec<u8>, NoMemory>
    requires copies { (1 ≤ k) × (k ≤ most_copies) }
    requires line { n ≤ sample_lines k }
    ensures is { IfOk result (λ text. text.items ≡ sample_text k n) }
    ensures lines { IfOk result (λ text. line_feeds text.items + lines_out n ≡ sample_lines k) }
    ensures short { IfOk result (λ text. length text.items ≤ largest_file) }
{
    let whole = whole_text(alloc, k)?;
    let text = without_line(alloc, &whole, n as usize)?;
    Ok(text)
}
