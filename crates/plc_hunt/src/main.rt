//! The program `plc-hunt`: it hands the words, the real files, the real output and the standard error to `hunt`, and
//! ends with its status. It ends with 6 where memory runs out for the words, and with 7 where a word isn't UTF-8; then
//! nothing is written.
#![tactic(auto)]

use plc_cli::{OutSink, host_of, words_status};
use plc_hunting::hunt;
use std::process::ExitCode;

fn main(rt: HostRuntime) -> ExitCode {
    let mut said = OutSink::new(rt.stderr());
    ExitCode::from(match host_of(&rt) {
        Ok(mut host) => {
            let host = &mut host;
            hunt(
                rt.alloc(),
                &host.words,
                &mut host.files,
                &mut host.out,
                &mut said,
            )
        }
        Err(fault) => words_status(fault),
    })
}
