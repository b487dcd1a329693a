// The exit statuses, by name. They are plain bytes, since the program ends with one.
ghost use Rattle.std.specs.Prelude.{◌≡◌};
ghost use Rattle.plc_cli.specs.Statuses.{words_status};

use plc_outside::WordsFault;

/// What was asked is so, or was done.
pub(crate) const HOLDS: u8 = 0;

/// What was asked isn't so.
pub(crate) const FAILS: u8 = 1;

/// The bytes are refused.
pub const REFUSED: u8 = 2;

/// The words are of no listed form.
pub(crate) const BAD_WORDS: u8 = 3;

/// A file couldn't be read.
pub(crate) const UNREAD: u8 = 4;

/// The text couldn't be written whole.
pub const UNWRITTEN: u8 = 5;

/// Memory ran out.
pub const NO_MEMORY: u8 = 6;

/// A word of the command line isn't UTF-8: the one status of the program alone.
pub const NOT_UTF8: u8 = 7;

/// The status of a program that has no words.
pub fn words_status(fault: WordsFault) -> u8
    ensures { result ≡ words_status fault }
{
    match fault {
        WordsFault::NotUtf8 => NOT_UTF8,
        WordsFault::Memory => NO_MEMORY,
    }
}
