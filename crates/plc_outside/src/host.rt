// What a program takes from the system before it does anything: its words, the files and the standard output. Each of
// the programs takes the same.
ghost use Rattle.std.specs.Prelude.{◌≡◌, [], IfOk};

use crate::real::{OutSink, RealFiles};
use crate::words::{WordsFault, program_words};
use std::io::{self, Printer};

/// What the system hands to a program.
#[derive(Drop)]
pub struct Host<'a> {
    /// The words after the program's name.
    pub words: Vec<String>,
    /// The files of the system, of which none was read.
    pub files: RealFiles<HostRuntime>,
    /// The standard output.
    pub out: OutSink<Printer<'a, HostRuntime>>,
}

/// What the system hands to a program. `NotUtf8` comes where one of its words isn't UTF-8, and `Memory` also where
/// there is none for a second handle.
pub fn host_of(runtime: &HostRuntime) -> Result<Host<'_>, WordsFault>
    ensures { IfOk result (λ host. host.files ≡ record { failed = []; taken = 0; given = [] }) }
{
    let words = program_words(runtime)?;
    let Ok(files) = runtime.clone() else {
        return Err(WordsFault::Memory);
    };
    Ok(Host {
        words,
        files: RealFiles::new(runtime.alloc(), files),
        out: OutSink::new(io::writer(runtime)),
    })
}
