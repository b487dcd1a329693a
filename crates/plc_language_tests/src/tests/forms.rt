// Syntax alone: each form of the grammar, how deep blocks may stand, beside what the parser says of it, and an
// outline at the front of tokens.
ghost use Rattle.std.specs.Prelude.{◌<◌, ◌^◌, length};

use crate::tests::tables::{Answers, assert_answer, assert_lines};
use crate::tests::texts::{ForTokens, Lexed, fate, number, push_came, push_repeated};
use plc_lex::Token;
use plc_syntax::{Fault, Rest};
use plc_tree::{SyntaxFault, file_tree, outline_tree};
use std::alloc::{AllocError, Global};

// Each form of the grammar at least once.
const EACH_FORM: &str = "struct N { ptr next; data val; } shared Top; shared End;
call enter(); call protect(ptr); use epoch(enter, protect);
ghost st { made, cut }; ghost owner thread;
init { Top := new; Top.next := null; End := mark Top; ghost Top.owner := none; }
op f(v, w) { ptr n; data x;
n := null; n := 7; n := m; n := m.next; n.val := 7; n.next := m; n.next := null;
n := mark m; n := unmark Top; assume marked n; assume unmarked Top;
n ?= Top; n ?= Top.next; n.next ?= Top; ghost n.st := cut; ghost n.owner := me;
active n; assume n == null; assume x != 7; assume x < 7; assume x >= w; skip;
atomic { n := Top; n.next ?= Top; ghost n.st := made; active n; assume n == m; n := mark n; assume marked n; skip; }
enter(); protect(null); protect(n) during l; protect(active n);
if (n == null) { } if (marked n) { } if (unmarked n) { } if (x < 7) { skip; } else { return; }
if (n ?= Top.next) { } if (cas(Top, n, null)) { } if (cas(active Top, null, n)) { }
choose { } or { break; } or { label l; } loop { } }
op g() { }
outline { depth 1; inv Top == null or not retired(Top) or retired(Top);
inv marked(Top) or not marked(Top.next);
over f: all x, y: x.st != made or 7 == y.val; at l, k: all x: me == none; }";

// The syntax alone of a file, or of the outline at the front.
enum Alone {
    File,
    Outline,
}

// The fault of tokens that are no file's.
fn file_fate(alloc: Global, all: &[Token]) -> Result<(), SyntaxFault>
    requires { length all.now < 2 ^ 32 }
{
    drop(file_tree(alloc, all)?);
    Ok(())
}

// How many tokens stand after the outline at the front, or where it is known that none stands there.
fn push_outline(alloc: Global, answer: &mut String, all: &[Token]) -> Result<(), AllocError>
    requires { length all.now < 2 ^ 32 }
{
    match outline_tree(alloc, Rest { tokens: all, at: 0 }) {
        Ok((_outline, rest)) => write!(answer, "{} left", rest.tokens.len()),
        Err(Fault::Syntax { at }) => write!(answer, "syntax {at}"),
        Err(Fault::Memory) => write!(answer, "memory"),
    }
}

impl ForTokens for Alone {
    fn push_for(&self, alloc: Global, text: &mut String, all: &[Token]) -> Result<(), AllocError> {
        match self {
            Alone::File => write!(text, "{:?}", file_fate(alloc, all)),
            Alone::Outline => push_outline(alloc, text, all),
        }
    }
}

// Loops within one another, and a text in the innermost.
fn push_nested(text: &mut String, depth: u32, inside: &str) -> Result<(), AllocError> {
    push_repeated(text, depth, "struct N { } op f ( ) { ", "loop { ", inside)?;
    push_repeated(text, depth, "", " }", " }")
}

fn push_both(alloc: Global, answer: &mut String, text: &str) -> Result<(), AllocError> {
    Lexed(Alone::File).push(alloc, answer, text)?;
    answer.push_str(" and ")?;
    push_came(answer, fate(alloc, text), 0)
}

// What syntax alone and the parser answer to so many loops within one another, and a text in the innermost.
struct NestedLoops;

impl Answers for NestedLoops {
    fn push(&self, alloc: Global, answer: &mut String, row: &str) -> Result<(), AllocError> {
        let (loops, inside) = row.split_once(" ").unwrap_or((row, ""));
        let depth = number(loops);
        let mut text = String::new(alloc);
        match push_nested(&mut text, depth, inside) {
            Ok(()) => push_both(alloc, answer, text.as_str()),
            Err(fault) => Err(fault),
        }
    }
}

const NESTED: &str = "\
64 => Ok(()) and unit
64 atomic { skip ; } init => Err(Syntax { at: 142 }) and syntax 142
64 { => Err(Syntax { at: 137 }) and syntax 137
65 => Err(Nesting { at: 138 }) and limit Nesting 65
70 => Err(Nesting { at: 138 }) and limit Nesting 65
63 if ( n == null ) { } else { } => Ok(()) and undeclared 137
64 if ( n == null ) { } => Err(Nesting { at: 143 }) and limit Nesting 65
63 if ( n == null ) { } else { loop { } } => Err(Nesting { at: 146 }) and limit Nesting 65
63 choose { } or { } or { } => Ok(()) and unit
64 choose { } or { } => Err(Nesting { at: 138 }) and limit Nesting 65
63 choose { } or { loop { } } => Err(Nesting { at: 141 }) and limit Nesting 65
63 choose { } or { } or { loop { } } => Err(Nesting { at: 144 }) and limit Nesting 65
";

#[test]
fn blocks_stand_in_blocks_at_most_64_deep(rt: HostRuntime) -> Result<(), AllocError> {
    assert_lines(&rt, rt.alloc(), &NestedLoops, NESTED)
}

#[test]
fn each_form_is_syntax(rt: HostRuntime) -> Result<(), AllocError> {
    assert_answer(&rt, rt.alloc(), &Lexed(Alone::File), EACH_FORM, "Ok(())")
}

const OUTLINES: &str = "\
outline { } => 0 left
outline { depth 2; } => 0 left
outline { inv Top == null; } => 0 left
outline { } } op op => 3 left
outline { => syntax 2
outline { depth => syntax 3
outline { inv Top == null; op => syntax 7
outline { inv Top == or => syntax 5
op => syntax 0
";

#[test]
fn an_outline_at_the_front_is_a_tree(rt: HostRuntime) -> Result<(), AllocError> {
    assert_lines(&rt, rt.alloc(), &Lexed(Alone::Outline), OUTLINES)
}
