// The outline, which stands after everything else: invariants go before the other items, and an
// outline of depth 0 that says nothing is left out. An item at no label has no text, so that the empty
// name stands for its label.
ghost use Rattle.std.specs.Prelude.{◌≡◌, [], map};
ghost use Rattle.plc_lang.specs.Names.{label_name};
ghost use Rattle.plc_logic.specs.declared.clause.Item.{Item as OutlineItem};
ghost use Rattle.plc_logic.specs.declared.clause.Site.TheVariants as sites;
ghost use Rattle.plc_logic.specs.Sites.{op_of_site};
ghost use Rattle.plc_syntax.specs.Trees.{AtItem, Outlined, each_then, maybe_then, comma_name_then, item_then};
ghost use Rattle.plc_syntax.specs.Trees.{depth_then, outline_then};
ghost use Rattle.plc_print.specs.Outlines.{bare, clause_tree, invariant_tree, site_tree, locals_in_reach, depth_tree};
ghost use Rattle.plc_print.specs.Outlines.{item_trees, outline_tree};
ghost use Rattle.plc_print.specs.Pieces.{Prints};

use crate::clauses::clause_line;
use crate::names::Reach;
use crate::tokens::Piece::{Name, Number, Word};
use crate::tokens::{BEGIN, COLON, COMMA, END, Printed, Printer, SEMICOLON};
use plc_base::{Items, OpId};
use plc_lang::{File, Local, label_name, labels_by_op, locals_of, operation_name};
use plc_lex::Keyword;
use plc_logic::{Clause, Item, Outline, Site, op_of_site};
use std::alloc::Global;

/// An invariant.
fn invariant(out: &mut Printer, file: &File, clause: &Clause) -> Printed
    ensures { Prints result out.old out.new (item_then (invariant_tree file.now clause.now) []) }
{
    let reach = Reach { file, locals: &[] };
    out.token(Word(Keyword::Inv))?;
    clause_line(out, reach, clause)
}

/// The invariants.
fn invariants(out: &mut Printer, file: &File, clauses: &[Clause]) -> Printed
    ensures { Prints result out.old out.new (each_then item_then (map (invariant_tree file.now) clauses.now) []) }
{
    for clause in clauses {
        invariant(out, file, clause)?;
    }
    Ok(())
}

/// A clause over an operation.
fn over(out: &mut Printer, reach: Reach, op: OpId, clause: &Clause) -> Printed
    ensures { Prints result out.old out.new (item_then (site_tree reach.entry.file.now (sites.Over op)
        (clause_tree reach.entry.file.now reach.entry.locals.now clause.now)) []) }
{
    out.tokens(&[
        Word(Keyword::Over),
        Name(operation_name(reach.file, op)),
        COLON,
    ])?;
    clause_line(out, reach, clause)
}

/// Labels after the first.
fn comma_labels(out: &mut Printer, file: &File, labels: &[u16]) -> Printed
    ensures { Prints result out.old out.new (each_then comma_name_then
        (map bare (map (label_name file.now) labels.now)) []) }
{
    for label in labels {
        out.tokens(&[COMMA, Name(label_name(file, *label))])?;
    }
    Ok(())
}

/// A clause at a label and those after it.
fn at_names(
    out: &mut Printer,
    reach: Reach,
    first: &[u8],
    others: &[u16],
    clause: &Clause,
) -> Printed
    ensures { Prints result out.old out.new (item_then (AtItem (bare first.now)
        (map bare (map (label_name reach.entry.file.now) others.now))
        (clause_tree reach.entry.file.now reach.entry.locals.now clause.now)) []) }
{
    out.tokens(&[Word(Keyword::At), Name(first)])?;
    comma_labels(out, reach.file, others)?;
    out.token(COLON)?;
    clause_line(out, reach, clause)
}

/// A clause at labels.
fn at(out: &mut Printer, reach: Reach, labels: &[u16], clause: &Clause) -> Printed
    ensures { Prints result out.old out.new (item_then (site_tree reach.entry.file.now (sites.At labels.now)
        (clause_tree reach.entry.file.now reach.entry.locals.now clause.now)) []) }
{
    match labels {
        [] => at_names(out, reach, &[], &[], clause),
        [first, others @ ..] => {
            let first = label_name(reach.file, *first);
            at_names(out, reach, first, others, clause)
        }
    }
}

/// The locals in reach of an item, given the labels of each operation.
fn locals_in_reach<'a>(file: &'a File, by_op: &[Items<u16>], site: &Site) -> &'a [Local]
    ensures { result.now ≡ locals_in_reach file.now (op_of_site by_op.now site.now) }
{
    match op_of_site(by_op, site) {
        None => &[],
        Some(op) => locals_of(file.ops.as_slice(), op),
    }
}

/// A clause at points.
fn item(out: &mut Printer, file: &File, by_op: &[Items<u16>], item: &Item) -> Printed
    ensures { Prints result out.old out.new (item_then (site_tree file.now item.now.site
        (clause_tree file.now (locals_in_reach file.now (op_of_site by_op.now item.now.site)) item.now.clause)) []) }
{
    let locals = locals_in_reach(file, by_op, &item.site);
    let reach = Reach { file, locals };
    match &item.site {
        Site::Over(op) => over(out, reach, *op, &item.clause),
        Site::At(labels) => at(out, reach, labels.as_slice(), &item.clause),
    }
}

/// The items but the invariants.
fn items(out: &mut Printer, file: &File, by_op: &[Items<u16>], items: &[Item]) -> Printed
    ensures { Prints result out.old out.new (each_then item_then (map (λ (i : OutlineItem). site_tree file.now i.site
        (clause_tree file.now (locals_in_reach file.now (op_of_site by_op.now i.site)) i.clause)) items.now) []) }
{
    for at_points in items {
        item(out, file, by_op, at_points)?;
    }
    Ok(())
}

/// The depth, which is left out where it is 0.
fn depth(out: &mut Printer, depth: u8) -> Printed
    ensures { Prints result out.old out.new (maybe_then depth_then (depth_tree depth) []) }
{
    if depth == 0 {
        return Ok(());
    }
    out.tokens(&[Word(Keyword::Depth), Number(u32::from(depth)), SEMICOLON])
}

/// An outline, even where it says nothing.
fn outlined(alloc: Global, out: &mut Printer, file: &File, outline: &Outline) -> Printed
    ensures { Prints result out.old out.new (outline_then
        (Outlined (depth_tree outline.now.depth) (item_trees file.now outline.now)) []) }
{
    let by_op = labels_by_op(alloc, file.ops.as_slice())?;
    out.tokens(&[Word(Keyword::Outline), BEGIN])?;
    depth(out, outline.depth)?;
    invariants(out, file, outline.invariants.as_slice())?;
    items(out, file, by_op.as_slice(), outline.items.as_slice())?;
    out.token(END)
}

/// The outline, which is left out where it is of depth 0 and says nothing.
pub fn outline(alloc: Global, out: &mut Printer, file: &File, outline: &Outline) -> Printed
    ensures { Prints result out.old out.new (maybe_then outline_then (outline_tree file.now outline.now) []) }
{
    if outline.depth == 0 && outline.invariants.is_empty() && outline.items.is_empty() {
        return Ok(());
    }
    outlined(alloc, out, file, outline)
}
