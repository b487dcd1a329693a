// Where a file is refused.
use plc_base::LARGEST_FILE;
use plc_check::{LoadFault, end_line};
use plc_lex::LexFault;

/// The line of a byte.
fn line_of_byte(bytes: &[u8], at: u32) -> u32 {
    let before = (at as usize).min(bytes.len()).min(LARGEST_FILE);
    end_line(&bytes[..before])
}

/// The line at which a refusal points; 0 where it names none.
pub(crate) fn line_of_refusal(bytes: &[u8], fault: &LoadFault) -> u32 {
    match *fault {
        LoadFault::Lex(LexFault::BadByte { at }) => line_of_byte(bytes, at),
        LoadFault::Lex(LexFault::LongName { at }) => line_of_byte(bytes, at),
        LoadFault::Lex(LexFault::BadNumber { at }) => line_of_byte(bytes, at),
        LoadFault::Parse { line, .. } => line,
        _ => 0,
    }
}
