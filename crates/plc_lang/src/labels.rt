// In which operation each label stands. The labels of the statements are noted once, one list for each
// operation, since an item may name many labels and the statements may be many.
ghost use Rattle.std.specs.Prelude.{◌≡◌, ◌++◌, IfOk, OnOk};
ghost use Rattle.plc_lang.specs.Views.{statement_of, blocks_of};
ghost use Rattle.plc_lang.specs.Labels.{label_or_none, statement_labels, block_labels, blocks_labels};
ghost use Rattle.plc_lang.specs.Labels.{labels_by_op, has_label, op_of_label};

use crate::block::Block;
use crate::syntax::{Op, Stmt};
use plc_base::{Items, NoMemory};
use std::alloc::Global;

/// Notes a label, if there is one.
fn note_during(during: Option<u16>, labels: &mut Items<u16>) -> Result<(), NoMemory>
    ensures { OnOk result (labels.new ≡ labels.old ++ label_or_none during) }
{
    if let Some(label) = during {
        labels.push(label)?;
    }
    Ok(())
}

/// Notes the labels of a statement, with those of its blocks.
#[cycle(note)]
fn note_statement(stmt: &Stmt, labels: &mut Items<u16>) -> Result<(), NoMemory>
    ensures { OnOk result (labels.new ≡ labels.old ++ statement_labels (statement_of stmt.now)) }
{
    match stmt {
        Stmt::Call { during, .. } => note_during(*during, labels),
        Stmt::If { yes, no, .. } => note_both(yes, no, labels),
        Stmt::Choose(blocks) => note_blocks(blocks, labels),
        Stmt::Loop(block) => note_block(block, labels),
        Stmt::Label(label) => note_during(Some(*label), labels),
        Stmt::One(_) | Stmt::Atomic(_) | Stmt::Break | Stmt::Return | Stmt::Skip => Ok(()),
    }
}

/// Notes the labels of the two blocks of an `if`.
#[cycle(note)]
fn note_both(yes: &Block, no: &Block, labels: &mut Items<u16>) -> Result<(), NoMemory>
    ensures { OnOk result (labels.new ≡ labels.old ++ (block_labels yes.now ++ block_labels no.now)) }
{
    note_block(yes, labels)?;
    note_block(no, labels)
}

/// Notes the labels of the blocks of a choice.
#[cycle(note)]
fn note_blocks(blocks: &[Block], labels: &mut Items<u16>) -> Result<(), NoMemory>
    ensures { OnOk result (labels.new ≡ labels.old ++ blocks_labels (blocks_of blocks.now)) }
{
    for block in blocks {
        note_block(block, labels)?;
    }
    Ok(())
}

/// Notes the labels of a block, statement by statement.
#[cycle(note)]
fn note_block(block: &Block, labels: &mut Items<u16>) -> Result<(), NoMemory>
    ensures { OnOk result (labels.new ≡ labels.old ++ block_labels block.now) }
{
    for line in block.lines() {
        note_statement(&line.stmt, labels)?;
    }
    Ok(())
}

/// The labels of an operation.
fn labels_of(alloc: Global, op: &Op) -> Result<Items<u16>, NoMemory>
    ensures { IfOk result (λ labels. labels ≡ block_labels op.now.body) }
{
    let mut labels = Items::new(alloc);
    note_block(&op.body, &mut labels)?;
    Ok(labels)
}

/// The labels of each operation, in order of the text. Its one error is that memory runs out.
pub fn labels_by_op(alloc: Global, ops: &[Op]) -> Result<Items<Items<u16>>, NoMemory>
    ensures { IfOk result (λ by_op. by_op ≡ labels_by_op ops.now) }
{
    let mut by_op = Items::new(alloc);
    for op in ops {
        by_op.push(labels_of(alloc, op)?)?;
    }
    Ok(by_op)
}

/// Whether a label is one of these.
fn has_label(labels: &Items<u16>, label: u16) -> bool
    ensures { result ≡ has_label label labels.now }
{
    labels.as_slice().iter().any(|found| *found == label)
}

/// The operation in which a label stands, given the labels of each; `None` where none has it.
pub fn op_of_label(by_op: &[Items<u16>], label: u16) -> Option<usize>
    ensures { result ≡ op_of_label by_op.now label }
{
    for (i, labels) in by_op.iter().enumerate() {
        if has_label(labels, label) {
            return Some(i);
        }
    }
    None
}
