// What lists are made of: with which token an item begins, and its reader.
ghost use Rattle.std.specs.Prelude.{◌≡◌};
ghost use Rattle.plc_syntax.specs.Trees.{Text, Placed as PlacedTree, PrimitiveTree, InitialTree, FieldTree};
ghost use Rattle.plc_syntax.specs.Trees.{FunctionTree, LiteralTree};
ghost use Rattle.plc_syntax.specs.Trees.{GhostTree, ItemTree, OpTree};
ghost use Rattle.plc_syntax.specs.Views.{placed_as, name_tree, primitive_tree, initial_tree, field_tree, shared_name};
ghost use Rattle.plc_syntax.specs.Views.{function_tree, literal_tree};
ghost use Rattle.plc_syntax.specs.Forms.{placed_of, comma_name_of, primitive_line_of, initial_of, field_of, shared_of};
ghost use Rattle.plc_syntax.specs.Forms.{function_of, or_literal_of};
ghost use Rattle.plc_tree.specs.Forms.{begins_comma_name, begins_primitive, begins_initial, begins_field};
ghost use Rattle.plc_tree.specs.Forms.{begins_shared, begins_function, begins_or, begins_ghost, ghost_of};
ghost use Rattle.plc_tree.specs.Forms.{begins_item, item_of, begins_op, op_of};
ghost use Rattle.plc_tree.specs.FormViews.{auxiliary_tree, item_tree};
ghost use Rattle.plc_tree.specs.FileViews.{operation_tree};

use crate::auxiliary::ghost_at;
use crate::form::{Auxiliary, Item};
use crate::list::Listed;
use crate::operation::{Operation, op_at};
use crate::outline::item_at;
use plc_lex::{Keyword, Symbol, TokenKind};
use plc_syntax::{
    Declaration, Function, Initial, Literal, Name, Placed, Primitive, Read, Rest, Shared,
    comma_name_at, field_at, form, function_at, initial_at, or_literal_at, primitive_line_at,
    shared_at,
};
use std::alloc::Global;

impl<'a> Listed<'a> for Name<'a> {
    ghost Tree = { PlacedTree Text };

    ghost tree = { name_tree };

    ghost starts = { begins_comma_name };

    ghost of = { λ m at ts. comma_name_of at ts };

    fn begins(kind: &TokenKind) -> bool
        ensures { result ≡ begins_comma_name kind.now }
    {
        matches!(kind, TokenKind::Symbol(Symbol::Comma))
    }

    fn read(_alloc: Global, _most: usize, rest: Rest<'a>) -> Read<'a, Name<'a>> {
        comma_name_at(rest)
    }
}

impl<'a> Listed<'a> for Placed<Primitive<'a>> {
    ghost Tree = { PlacedTree PrimitiveTree };

    ghost tree = { placed_as primitive_tree };

    ghost starts = { begins_primitive };

    ghost of = { λ m at ts. placed_of primitive_line_of at ts };

    fn begins(kind: &TokenKind) -> bool
        ensures { result ≡ begins_primitive kind.now }
    {
        matches!(
            kind,
            TokenKind::Name(_)
                | TokenKind::Word(
                    Keyword::Ghost | Keyword::Active | Keyword::Assume | Keyword::Skip
                )
        )
    }

    fn read(_alloc: Global, _most: usize, rest: Rest<'a>) -> Read<'a, Placed<Primitive<'a>>> {
        form!(Placed { at: rest.at, value }; value = primitive_line_at(rest))
    }
}

impl<'a> Listed<'a> for Placed<Initial<'a>> {
    ghost Tree = { PlacedTree InitialTree };

    ghost tree = { placed_as initial_tree };

    ghost starts = { begins_initial };

    ghost of = { λ m at ts. placed_of initial_of at ts };

    fn begins(kind: &TokenKind) -> bool
        ensures { result ≡ begins_initial kind.now }
    {
        matches!(kind, TokenKind::Name(_) | TokenKind::Word(Keyword::Ghost))
    }

    fn read(_alloc: Global, _most: usize, rest: Rest<'a>) -> Read<'a, Placed<Initial<'a>>> {
        form!(Placed { at: rest.at, value }; value = initial_at(rest))
    }
}

impl<'a> Listed<'a> for Declaration<'a> {
    ghost Tree = { FieldTree };

    ghost tree = { field_tree };

    ghost starts = { begins_field };

    ghost of = { λ m at ts. field_of at ts };

    fn begins(kind: &TokenKind) -> bool
        ensures { result ≡ begins_field kind.now }
    {
        matches!(kind, TokenKind::Word(Keyword::Ptr | Keyword::Data))
    }

    fn read(_alloc: Global, _most: usize, rest: Rest<'a>) -> Read<'a, Declaration<'a>> {
        field_at(rest)
    }
}

impl<'a> Listed<'a> for Shared<'a> {
    ghost Tree = { PlacedTree Text };

    ghost tree = { shared_name };

    ghost starts = { begins_shared };

    ghost of = { λ m at ts. shared_of at ts };

    fn begins(kind: &TokenKind) -> bool
        ensures { result ≡ begins_shared kind.now }
    {
        matches!(kind, TokenKind::Word(Keyword::Shared))
    }

    fn read(_alloc: Global, _most: usize, rest: Rest<'a>) -> Read<'a, Shared<'a>> {
        shared_at(rest)
    }
}

impl<'a> Listed<'a> for Function<'a> {
    ghost Tree = { FunctionTree };

    ghost tree = { function_tree };

    ghost starts = { begins_function };

    ghost of = { λ m at ts. function_of at ts };

    fn begins(kind: &TokenKind) -> bool
        ensures { result ≡ begins_function kind.now }
    {
        matches!(kind, TokenKind::Word(Keyword::Call))
    }

    fn read(_alloc: Global, _most: usize, rest: Rest<'a>) -> Read<'a, Function<'a>> {
        function_at(rest)
    }
}

impl<'a> Listed<'a> for Placed<Literal<'a>> {
    ghost Tree = { PlacedTree LiteralTree };

    ghost tree = { placed_as literal_tree };

    ghost starts = { begins_or };

    ghost of = { λ m at ts. or_literal_of at ts };

    fn begins(kind: &TokenKind) -> bool
        ensures { result ≡ begins_or kind.now }
    {
        matches!(kind, TokenKind::Word(Keyword::Or))
    }

    fn read(_alloc: Global, _most: usize, rest: Rest<'a>) -> Read<'a, Placed<Literal<'a>>> {
        or_literal_at(rest)
    }
}

impl<'a> Listed<'a> for Auxiliary<'a> {
    ghost Tree = { GhostTree };

    ghost tree = { auxiliary_tree };

    ghost starts = { begins_ghost };

    ghost of = { λ m at ts. ghost_of m at ts };

    fn begins(kind: &TokenKind) -> bool
        ensures { result ≡ begins_ghost kind.now }
    {
        matches!(kind, TokenKind::Word(Keyword::Ghost))
    }

    fn read(alloc: Global, most: usize, rest: Rest<'a>) -> Read<'a, Auxiliary<'a>> {
        ghost_at(alloc, most, rest)
    }
}

impl<'a> Listed<'a> for Item<'a> {
    ghost Tree = { ItemTree };

    ghost tree = { item_tree };

    ghost starts = { begins_item };

    ghost of = { λ m at ts. item_of m at ts };

    fn begins(kind: &TokenKind) -> bool
        ensures { result ≡ begins_item kind.now }
    {
        matches!(
            kind,
            TokenKind::Word(Keyword::Inv | Keyword::Over | Keyword::At)
        )
    }

    fn read(alloc: Global, most: usize, rest: Rest<'a>) -> Read<'a, Item<'a>> {
        item_at(alloc, most, rest)
    }
}

impl<'a> Listed<'a> for Placed<Operation<'a>> {
    ghost Tree = { PlacedTree OpTree };

    ghost tree = { placed_as operation_tree };

    ghost starts = { begins_op };

    ghost of = { λ m at ts. placed_of (op_of m) at ts };

    fn begins(kind: &TokenKind) -> bool
        ensures { result ≡ begins_op kind.now }
    {
        matches!(kind, TokenKind::Word(Keyword::Op))
    }

    fn read(alloc: Global, most: usize, rest: Rest<'a>) -> Read<'a, Placed<Operation<'a>>> {
        form!(Placed { at: rest.at, value }; value = op_at(alloc, most, rest))
    }
}
