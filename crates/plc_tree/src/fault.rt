// The faults of a whole file: beside those of a reader, a block that stands too deep.

/// Why the tokens of a whole file are refused. A place counts tokens from 0.
#[derive(Clone, Copy, Debug)]
pub enum SyntaxFault {
    /// No file's tokens begin with those up to and with this one; the number of tokens where they
    /// begin a file and are none.
    Syntax { at: u32 },
    /// This brace begins the first block that stands within 64 others.
    Nesting { at: u32 },
    /// Memory ran out.
    Memory,
}
