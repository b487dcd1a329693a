// One entry from its line. Each reader takes the words after the kind of entry that it reads, and
// answers the one entry that has these words, or that none has. No line is read twice: the first word
// says which reader takes the others.
ghost use Rattle.std.specs.Prelude.{◌≡◌, ◌≤◌, ◌∷◌, ℕ, codes, IfOk, IfErr};
ghost use Rattle.std.specs.List.{list_all};
ghost use Rattle.plc_lex.specs.Characters.{in_name};
ghost use Rattle.plc_sched.specs.Entries.{is_name};
ghost use Rattle.plc_sched.specs.Reading.{IsEntryOf, IsAddress, IsLine};
ghost use Rattle.plc_sched.specs.Words.{words_left};
ghost use Rattle.plc_sched.specs.declared.fault.SchedFault.TheVariants.{Memory};

use crate::fault::SchedFault;
use crate::numbers::{last_number, next_number, numbers};
use crate::schedule::Entry;
use crate::words::{Words, next_word};
use plc_base::{GREATEST_PLACE, Items, MOST_ADDRESSES, MOST_NAME_BYTES};
use plc_lex::{in_name, is_letter};
use std::alloc::Global;

const START: &[u8] = b"start";

const STEP: &[u8] = b"step";

const RETURN: &[u8] = b"return";

const TICK: &[u8] = b"tick";

/// Whether each byte goes on a name.
fn is_all_in_name(word: &[u8]) -> bool
    ensures { result ≡ list_all in_name word.now }
{
    word.iter().all(|b| in_name(*b))
}

/// Whether a word is spelled as a name is: a keyword may be one here.
fn is_name(word: &[u8]) -> bool
    ensures { result ≡ is_name word.now }
{
    match word {
        [first, ..] if is_letter(*first) => word.len() <= MOST_NAME_BYTES && is_all_in_name(word),
        _ => false,
    }
}

/// The start of an operation, from the words after `start`.
fn read_start(alloc: Global, threads: u32, words: Words) -> Result<Option<Entry>, SchedFault>
    requires { 1 ≤ threads }
    ensures ok { IfOk result (IsEntryOf threads (codes "start" ∷ words_left words.entry)) }
    ensures err { IfErr result (λ e. e ≡ Memory) }
{
    let Some((t, words)) = next_number(words, 0, threads - 1) else {
        return Ok(None);
    };
    let Some((op, words)) = next_word(words) else {
        return Ok(None);
    };
    if !is_name(op) {
        return Ok(None);
    }
    let Some(args) = numbers(alloc, words)? else {
        return Ok(None);
    };
    let op = Items::from_vec(Vec::from_slice(alloc, op)?);
    Ok(Some(Entry::Start { t, op, args }))
}

/// The address of a step: none, or the last word.
fn address(words: Words) -> Option<Option<u32>>
    ensures { IsAddress (words_left words.entry) result }
{
    if words.left.is_none() {
        return Some(None);
    }
    let address = last_number(words, 1, MOST_ADDRESSES)?;
    Some(Some(address))
}

/// A step of a thread, from the words after `step`.
fn read_step(threads: u32, words: Words) -> Option<Entry>
    requires { 1 ≤ threads }
    ensures { IsEntryOf threads (codes "step" ∷ words_left words.entry) result }
{
    let (t, words) = next_number(words, 0, threads - 1)?;
    let (nth, words) = next_number(words, 0, GREATEST_PLACE)?;
    let addr = address(words)?;
    Some(Entry::Step {
        t,
        nth: nth as u16,
        addr,
    })
}

/// The return of a thread, from the words after `return`.
fn read_return(threads: u32, words: Words) -> Option<Entry>
    requires { 1 ≤ threads }
    ensures { IsEntryOf threads (codes "return" ∷ words_left words.entry) result }
{
    let t = last_number(words, 0, threads - 1)?;
    Some(Entry::Return { t })
}

/// A tick, after whose kind no word stands.
fn read_tick(words: Words) -> Option<Entry>
    ensures { (threads : ℕ) → IsEntryOf threads (codes "tick" ∷ words_left words.entry) result }
{
    if words.left.is_none() {
        Some(Entry::Tick)
    } else {
        None
    }
}

/// The entry that has these words.
fn read_words(alloc: Global, threads: u32, words: Words) -> Result<Option<Entry>, SchedFault>
    requires { 1 ≤ threads }
    ensures ok { IfOk result (IsEntryOf threads (words_left words.entry)) }
    ensures err { IfErr result (λ e. e ≡ Memory) }
{
    let Some((kind, words)) = next_word(words) else {
        return Ok(None);
    };
    if kind == START {
        return read_start(alloc, threads, words);
    }
    if kind == STEP {
        return Ok(read_step(threads, words));
    }
    if kind == RETURN {
        return Ok(read_return(threads, words));
    }
    if kind == TICK {
        return Ok(read_tick(words));
    }
    Ok(None)
}

/// The entry that a line spells, its thread below `threads`, or `None` where it spells none.
pub fn read_entry(alloc: Global, threads: u32, line: &[u8]) -> Result<Option<Entry>, SchedFault>
    requires { 1 ≤ threads }
    ensures ok { IfOk result (IsLine threads line.now) }
    ensures err { IfErr result (λ e. e ≡ Memory) }
{
    read_words(alloc, threads, Words { left: Some(line) })
}
