// The words of the command line, which each program takes from the system in the same way.
use std::env;
use std::io::ErrorKind;

/// Why there are no words.
#[derive(Clone, Copy, Debug, PartialEq, Eq)]
pub enum WordsFault {
    /// One of them isn't UTF-8.
    NotUtf8,
    /// Memory ran out.
    Memory,
}

/// The words after the program's name. `NotUtf8` comes where one of them isn't UTF-8.
pub(crate) fn program_words(host: &HostRuntime) -> Result<Vec<String>, WordsFault> {
    let mut words = Vec::new(host.alloc());
    let args = match env::args(host) {
        Ok(args) => args,
        Err(fault) if fault.kind() == ErrorKind::InvalidData => return Err(WordsFault::NotUtf8),
        Err(_) => return Err(WordsFault::Memory),
    };
    for word in args.skip(1) {
        if words.push(word).is_err() {
            return Err(WordsFault::Memory);
        }
    }
    Ok(words)
}
