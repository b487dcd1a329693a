// Numbers within a range, as words. Only the one spelling that printing gives is read: the library
// also reads a plus and leading zeros, which are refused here.
ghost use Rattle.std.specs.Prelude.{◌≡◌, IfOk, IfErr};
ghost use Rattle.plc_sched.specs.Numbers.{IsNumberOf};
ghost use Rattle.plc_sched.specs.NumberWords.{is_plain, IsNextNumber, IsLastNumber, AreNumbers};
ghost use Rattle.plc_sched.specs.Words.{words_left};
ghost use Rattle.plc_sched.specs.declared.fault.SchedFault.TheVariants.{Memory};

use crate::fault::SchedFault;
use crate::words::{Words, next_word};
use plc_base::{Items, What1};
use std::alloc::Global;

/// Whether printing a number could give these bytes, as far as the first of them tells.
fn is_plain(word: &[u8]) -> bool
    ensures { result ≡ is_plain word.now }
{
    match word {
        [b'0', _, ..] | [b'+', ..] => false,
        _ => true,
    }
}

/// The number that a word writes, from `least` to `most`, in plain decimal: without a sign and without zeros at the
/// front. `None` where it writes no such number.
pub fn number_of(word: &[u8], least: u32, most: u32) -> Option<u32>
    ensures { IsNumberOf word.now least most result }
{
    if !is_plain(word) {
        return None;
    }
    let Ok(text) = str::from_utf8(word) else {
        return None;
    };
    let Ok(number) = text.parse::<u32>() else {
        return None;
    };
    if least <= number && number <= most {
        Some(number)
    } else {
        None
    }
}

/// The number that the next word writes, from `least` to `most`, and the words after it.
pub fn next_number<'a>(words: Words<'a>, least: u32, most: u32) -> Option<(u32, Words<'a>)>
    ensures { IsNextNumber (words_left words.entry) least most result }
{
    let (word, rest) = next_word(words)?;
    let number = number_of(word, least, most)?;
    Some((number, rest))
}

/// The number that the one word that is left writes, from `least` to `most`.
pub fn last_number(words: Words, least: u32, most: u32) -> Option<u32>
    ensures { IsLastNumber (words_left words.entry) least most result }
{
    let (number, rest) = next_number(words, least, most)?;
    if rest.left.is_none() {
        Some(number)
    } else {
        None
    }
}

/// The numbers that all words that are left write, as many as an operation may have locals.
pub fn numbers(alloc: Global, words: Words) -> Result<Option<Items<u32>>, SchedFault>
    ensures ok { IfOk result (AreNumbers (words_left words.entry)) }
    ensures err { IfErr result (λ e. e ≡ Memory) }
{
    let mut numbers = Items::new(alloc);
    let mut rest = words;
    while rest.left.is_some() {
        if numbers.len() == What1::Locals.most() as usize {
            return Ok(None);
        }
        let Some((number, after)) = next_number(rest, 0, u32::MAX) else {
            return Ok(None);
        };
        numbers.push(number)?;
        rest = after;
    }
    Ok(Some(numbers))
}
