// What is left of a text, with the place and the line at which that begins. A token and a fault
// take their places from it, so that nothing is counted twice.
ghost use Rattle.std.specs.Prelude.{◌≡◌, ◌≤◌, ◌+◌, length, drop};
ghost use Rattle.plc_base.specs.FileSizes.{largest_file};

/// What is left of a text, with its place and its line.
#[derive(Clone, Copy)]
pub struct Rest<'a> {
    pub bytes: &'a [u8],
    pub at: u32,
    pub line: u32,
    ghost in_limit: { at + length bytes.now ≤ largest_file },
    ghost line_bound: { line ≤ at + 1 },
}

/// What is left after some bytes of the same line.
pub fn rest_after<'a>(rest: Rest<'a>, count: usize) -> Rest<'a>
    requires { count ≤ length rest.bytes.now }
    ensures bytes { result.bytes.now ≡ drop count rest.entry.bytes.now }
    ensures at { result.at ≡ rest.entry.at + count }
    ensures line { result.line ≡ rest.entry.line }
{
    let (_, bytes) = rest.bytes.split_at(count);
    Rest {
        bytes,
        at: rest.at + count as u32,
        line: rest.line,
    }
}
