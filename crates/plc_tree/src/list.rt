// Lists of any length: items stand one after another while a token stands there with which one begins.
// One loop reads them all, with the symbol that ends them and between braces too. Each item takes a token, so there
// are no more of them than tokens: `most` is above that number, and ends the loop.
ghost use Rattle.std.specs.Prelude.{◌≡◌, map};
ghost use Rattle.plc_syntax.specs.Syntax.{kinds};
ghost use Rattle.plc_syntax.specs.Forms.{first_is, list_of, ended_by};
ghost use Rattle.plc_syntax.specs.Answers.{Gives};
ghost use Rattle.plc_tree.specs.Forms.{closed_of, braced_of};

use plc_base::Items;
use plc_lex::{Symbol, TokenKind};
use plc_syntax::{Read, Rest, first, in_turn, symbol_at, syntax_fault};
use std::alloc::Global;

/// What a list is made of.
pub trait Listed<'a>: Sized + Drop {
    ghost use Rattle.std.specs.Prelude.{ℕ, Bool, List};
    ghost use Rattle.plc_lex.specs.declared.token.TokenKind.{TokenKind as Kind};
    ghost use Rattle.plc_syntax.specs.Forms.{Read as ReadAs};

    // the trees of items
    ghost Tree: { Type 0 };

    // an item's tree
    ghost tree: { Self → Tree };

    // whether an item begins with a token
    ghost starts: { Kind → Bool };

    // what is read at the front of tokens as an item
    ghost of: { ℕ → ℕ → List Kind → ReadAs Tree };

    /// Whether an item begins with a token.
    fn begins(kind: &TokenKind) -> bool
        ensures { result ≡ starts kind.now };

    /// An item; at most so many of what it is made of.
    fn read(alloc: Global, most: usize, rest: Rest<'a>) -> Read<'a, Self>
        ensures { Gives tree result (of most rest.entry.at (kinds rest.entry.tokens.now)) };
}

/// Whether an item begins at the front.
fn begins<'a, T: Listed<'a>>(rest: Rest<'a>) -> bool
    ensures { result ≡ first_is T.starts (kinds rest.entry.tokens.now) }
{
    match first(rest) {
        Some((kind, _)) => T::begins(kind),
        None => false,
    }
}

/// The items of a list; at most so many.
pub fn list_at<'a, T: Listed<'a>>(alloc: Global, most: usize, start: Rest<'a>) -> Read<'a, Items<T>>
    ensures { Gives (λ xs. map T.tree xs) result
        (list_of T.starts T.of most start.entry.at (kinds start.entry.tokens.now)) }
{
    let mut items = Items::new(alloc);
    let mut rest = start;
    for i in 0..most {
        if !begins::<T>(rest) {
            return Ok((items, rest));
        }
        let (item, after) = T::read(alloc, most - 1 - i, rest)?;
        items.push(item)?;
        rest = after;
    }
    Err(syntax_fault(rest))
}

/// The items of a list and the symbol that ends it; at most so many items.
pub fn ended_list_at<'a, T: Listed<'a>>(
    alloc: Global,
    most: usize,
    rest: Rest<'a>,
    end: Symbol,
) -> Read<'a, Items<T>>
    ensures { Gives (λ xs. map T.tree xs) result
        (ended_by end (list_of T.starts T.of most) rest.entry.at (kinds rest.entry.tokens.now)) }
{
    in_turn!(
        (items, after) = list_at(alloc, most, rest);
        after = symbol_at(after, end), dropping items;
        Ok((items, after))
    )
}

/// The items of a list within braces; at most so many.
pub fn braced_list_at<'a, T: Listed<'a>>(
    alloc: Global,
    most: usize,
    rest: Rest<'a>,
) -> Read<'a, Items<T>>
    ensures { Gives (λ xs. map T.tree xs) result
        (braced_of (closed_of (list_of T.starts T.of most)) rest.entry.at (kinds rest.entry.tokens.now)) }
{
    in_turn!(
        after = symbol_at(rest, Symbol::OpenBrace);
        ended_list_at(alloc, most, after, Symbol::CloseBrace)
    )
}
