//! Judges the examples: each line of the input is a command as `plc` takes it, and what is printed is the command
//! with its answer, so that the gate compares the answer of every example with the one that is written down.
#![tactic(auto)]

mod answers;

use answers::line_with_answer;
use std::io;

/// Prints a command with its answer.
fn print_answer(rt: &HostRuntime, line: &str) -> io::Result<()> {
    let text = line_with_answer(rt, line)?;
    let printed = println!(rt; "{text}");
    drop(text);
    printed
}

fn main(rt: HostRuntime) -> io::Result<()> {
    for line in rt.lines(rt.alloc()) {
        print_answer(&rt, line?.as_str())?;
    }
    Ok(())
}
