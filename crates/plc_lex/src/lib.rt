//! From bytes to tokens, on ids and lists alone: `tokens` gives exactly the tokens that the bytes
//! spell, or the fault at the least place. The texts of words and symbols stand here once, for reading and printing.
#![tactic(auto)]

mod characters;
mod fault;
mod lexing;
mod reading;
mod rest;
mod token;
mod words;

pub use characters::{in_name, is_letter};
pub use fault::LexFault;
pub use lexing::{lines_are_counted, spelling_is_unique, tokens};
pub use token::{Keyword, Symbol, Token, TokenKind};
pub use words::{symbol_text, word_text};
