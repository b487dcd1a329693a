// What is said of a race beside the schedule, line by line.
use plc_answers::{push, push_bytes, push_numbered, variable_in};
use plc_explore::{Account, Lines};
use plc_lang::File;
use plc_mem::RaceKind;
use std::alloc::AllocError;

/// What a race does with its pointer.
fn race_words(kind: RaceKind) -> &'static str {
    match kind {
        RaceKind::Deref => ", which goes through ",
        RaceKind::Compare => ", which compares ",
        RaceKind::Pass => ", which retires ",
        RaceKind::Double => ", which retires for the second time ",
    }
}

/// Adds a line of the schedule after words, and then the line of the file whose step it takes, if it takes one.
fn push_lines(out: &mut Vec<u8>, words: &str, at: Lines, then: &str) -> Result<(), AllocError> {
    push_numbered(out, words, at.schedule)?;
    push(out, " of the schedule")?;
    match at.file {
        Some(line) => {
            push_numbered(out, then, line)?;
            push(out, " of the file")
        }
        None => Ok(()),
    }
}

/// Adds where something happened, if it did.
fn push_place(out: &mut Vec<u8>, words: &str, place: Option<Lines>) -> Result<(), AllocError> {
    let Some(place) = place else {
        return Ok(());
    };
    push_lines(out, words, place, ", line ")?;
    push(out, "\n")
}

/// Adds the pointer of a race.
fn push_pointer(out: &mut Vec<u8>, file: &File, account: &Account) -> Result<(), AllocError> {
    match account.pointer {
        Some((op, var)) => push_bytes(out, variable_in(file, op, var)),
        None => push(out, "a pointer"),
    }
}

/// Adds what is known of a race, line by line. The one error is that memory runs out.
pub fn push_account(out: &mut Vec<u8>, file: &File, account: &Account) -> Result<(), AllocError> {
    push_lines(out, "race: line ", account.at, " takes line ")?;
    push(out, race_words(account.kind))?;
    push_pointer(out, file, account)?;
    push(out, "\n")?;
    push_place(out, "retired: line ", account.retired)?;
    push_place(out, "freed: line ", account.freed)
}
