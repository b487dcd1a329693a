// The file: the public reader, and the pieces of which a file is made. How deep blocks stand within one
// another is judged before, on the tokens: where a block stands too deep, the tokens are cut off after
// its brace and read. A fault at or before the brace is the fault of the syntax; with a fault after it
// or a tree the tokens up to the brace begin a file. So no reader of forms counts blocks.
ghost use Rattle.std.specs.Prelude.{◌<◌, ◌^◌, ℕ, length, IfOk, IfErr};
ghost use Rattle.plc_syntax.specs.Nesting.{NoneTooDeep};
ghost use Rattle.plc_syntax.specs.Stops.{SyntaxFaultAt, NestingFaultAt};
ghost use Rattle.plc_syntax.specs.Syntax.{kinds, AreOfFile, IsFile};
ghost use Rattle.plc_syntax.specs.Answers.{Gives};
ghost use Rattle.plc_tree.specs.Forms.{struct_of, heading_of, file_of};
ghost use Rattle.plc_tree.specs.FileViews.{struct_parts, heading_tree, file_tree};
ghost use Rattle.plc_tree.specs.Answers.{StopsThere, FaultsUpTo};
ghost use Rattle.plc_tree.specs.Whole.{IsExactly, IsReadWhere};

use crate::auxiliary::init_at;
use crate::fault::SyntaxFault;
use crate::form::{Auxiliary, Outline};
use crate::list::{braced_list_at, list_at};
use crate::nesting::first_too_deep;
use crate::operation::Operation;
use crate::outline::outlined_at;
use plc_base::Items;
use plc_lex::{Keyword, Token};
use plc_syntax::{
    Declaration, Fault, Function, Initial, Name, Placed, Read, Rest, Shared, Watch, form, in_turn,
    name_at, syntax_fault, watch_at, word_at,
};
use std::alloc::Global;

/// The struct of a file: the name of nodes, and their fields.
#[derive(Drop)]
pub struct Struct<'a> {
    /// How it is called.
    pub name: Name<'a>,
    /// The fields of a node.
    pub fields: Items<Declaration<'a>>,
}

/// What stands before the operations of a file.
#[derive(Drop)]
pub struct Heading<'a> {
    /// What a node is.
    pub node: Struct<'a>,
    /// The shared pointers.
    pub pointers: Items<Shared<'a>>,
    /// The functions of the reclaimer that operations call.
    pub functions: Items<Function<'a>>,
    /// What the reclaimer watches, which may be left out.
    pub watched: Option<Watch<'a>>,
    /// The auxiliary fields.
    pub auxiliaries: Items<Auxiliary<'a>>,
    /// The init block, which may be left out.
    pub starts: Option<Items<Placed<Initial<'a>>>>,
}

/// A file as a tree. It borrows the bytes of names from the tokens.
#[derive(Drop)]
pub struct File<'a> {
    /// What stands before the operations.
    pub heading: Heading<'a>,
    /// The operations in order.
    pub operations: Items<Placed<Operation<'a>>>,
    /// The outline, which may be left out.
    pub outline: Option<Outline<'a>>,
}

/// The struct.
fn struct_at<'a>(alloc: Global, most: usize, rest: Rest<'a>) -> Read<'a, Struct<'a>>
    ensures { Gives struct_parts result (struct_of most rest.entry.at (kinds rest.entry.tokens.now)) }
{
    in_turn!(
        after = word_at(rest, Keyword::Struct);
        (name, after) = name_at(after);
        form!(Struct { name, fields }; fields = braced_list_at(alloc, most, after))
    )
}

/// What stands before the operations.
fn heading_at<'a>(alloc: Global, most: usize, rest: Rest<'a>) -> Read<'a, Heading<'a>>
    ensures { Gives heading_tree result (heading_of most rest.entry.at (kinds rest.entry.tokens.now)) }
{
    in_turn!(
        (node, after) = struct_at(alloc, most, rest);
        (pointers, after) = list_at(alloc, most, after), dropping node;
        (functions, after) = list_at(alloc, most, after), dropping node, pointers;
        (watched, after) = watch_at(after), dropping node, pointers, functions;
        (auxiliaries, after) = list_at(alloc, most, after), dropping node, pointers, functions;
        form!(
            Heading { node, pointers, functions, watched, auxiliaries, starts };
            starts = init_at(alloc, most, after), dropping node, pointers, functions, auxiliaries
        )
    )
}

/// A file at the front.
fn file_at<'a>(alloc: Global, most: usize, rest: Rest<'a>) -> Read<'a, File<'a>>
    ensures { Gives file_tree result (file_of most rest.entry.at (kinds rest.entry.tokens.now)) }
{
    in_turn!(
        (heading, after) = heading_at(alloc, most, rest);
        (operations, after) = list_at(alloc, most, after), dropping heading;
        form!(
            File { heading, operations, outline };
            outline = outlined_at(alloc, most, after), dropping heading, operations
        )
    )
}

/// The tree of tokens, however deep its blocks stand.
fn whole_file<'a>(alloc: Global, tokens: &'a [Token]) -> Result<File<'a>, Fault>
    requires { length tokens.now < 2 ^ 32 }
    ensures tree { IfOk result (λ file. AreOfFile (file_tree file) (kinds tokens.now)) }
    ensures fault { IfErr result (StopsThere (kinds tokens.now)) }
{
    match file_at(alloc, tokens.len() + 1, Rest { tokens, at: 0 }) {
        Ok((file, rest)) => {
            if rest.tokens.is_empty() {
                return Ok(file);
            }
            drop(file);
            Err(syntax_fault(rest))
        }
        Err(fault) => Err(fault),
    }
}

/// The fault of tokens, once a block stands too deep at a place and none before.
fn fault_up_to(alloc: Global, tokens: &[Token], place: usize) -> SyntaxFault
    requires size { length tokens.now < 2 ^ 32 }
    requires within { place < length tokens.now }
    ensures { FaultsUpTo (kinds tokens.now) place result }
{
    match whole_file(alloc, &tokens[..place + 1]) {
        Ok(file) => {
            drop(file);
            SyntaxFault::Nesting { at: place as u32 }
        }
        Err(Fault::Syntax { at }) => {
            let is_up_to = at as usize <= place;
            if is_up_to {
                return SyntaxFault::Syntax { at };
            }
            SyntaxFault::Nesting { at: place as u32 }
        }
        Err(Fault::Memory) => SyntaxFault::Memory,
    }
}

/// The tree of a file with at most 64 blocks within one another, or the fault at the least token. The
/// tree's spelling is the tokens, so it says all that they say, and each place in it is that of its token.
pub fn file_tree<'a>(alloc: Global, tokens: &'a [Token]) -> Result<File<'a>, SyntaxFault>
    requires { length tokens.now < 2 ^ 32 }
    ensures tree { IfOk result (λ file. AreOfFile (file_tree file) (kinds tokens.now)) }
    ensures file { IsReadWhere SyntaxFault.Memory result
        (IsFile (kinds tokens.now) × NoneTooDeep (kinds tokens.now)) }
    ensures syntax { (at : ℕ) → IsExactly SyntaxFault.Memory result (Err (SyntaxFault.Syntax at))
        (SyntaxFaultAt (kinds tokens.now) at) }
    ensures nesting { (at : ℕ) → IsExactly SyntaxFault.Memory result (Err (SyntaxFault.Nesting at))
        (NestingFaultAt (kinds tokens.now) at) }
{
    if let Some(place) = first_too_deep(tokens) {
        return Err(fault_up_to(alloc, tokens, place));
    }
    match whole_file(alloc, tokens) {
        Ok(file) => Ok(file),
        Err(Fault::Syntax { at }) => Err(SyntaxFault::Syntax { at }),
        Err(Fault::Memory) => Err(SyntaxFault::Memory),
    }
}
