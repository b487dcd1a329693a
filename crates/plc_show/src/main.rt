//! The program `plc-show`: it hands the words, the real files, the real output and the standard error to `show`, and
//! ends with its answer. It ends with 6 where memory runs out for the words, and with 7 where a word isn't UTF-8; then
//! nothing is written.
#![tactic(auto)]

use plc_cli::{OutSink, host_of, words_status};
use plc_view::show;
use std::process::ExitCode;

fn main(rt: HostRuntime) -> ExitCode {
    let mut causes = OutSink::new(rt.stderr());
    ExitCode::from(match host_of(&rt) {
        Ok(mut host) => {
            let host = &mut host;
            show(
                rt.alloc(),
                &host.words,
                &mut host.files,
                &mut host.out,
                &mut causes,
            )
        }
        Err(fault) => words_status(fault),
    })
}
