// Names in claims are looked up as they stand in the text: no table from names to numbers is made, since a file has at
// most 256 labels and an observer at most seven locations. Only the operations of the labels are noted, once, since
// finding one goes through all statements. Where several labels have one name, the first will do that has what the
// claim names; nothing promises that there is only one.
ghost use Rattle.std.specs.Prelude.{◌≡◌, ◌==◌, ◌≤◌, ◌<◌, ◌↔◌, ℕ, length, count_by, IsTrue};
ghost use Rattle.std.specs.Prelude.{IfOk, IfSome, IfNone, is_some, option_map};
ghost use Rattle.std.specs.List.{position};
ghost use Rattle.plc_lang.specs.Fit.{FileFits};
ghost use Rattle.plc_lang.specs.Locals.{is_pointer};
ghost use Rattle.plc_at.specs.Claims.{locals_by_label, before_dot, after_dot};
ghost use Rattle.plc_at.specs.Reading.{AreOpsAmong, AreOps, IsPointerAt, IsLocalNamed, IsLabelNamed, AreNamed};
ghost use Rattle.plc_at.specs.Reading.{HasPointers, location_name, BeginsWith, HasParts};
ghost use Rattle.plc_auto.specs.Table.{count_of};

use plc_auto::Observer;
use plc_base::{Items, LocId, NoMemory};
use plc_flow::Flow;
use plc_lang::{File, Local, label_name, labels_by_op, locals_of, name_at, op_of_label};
use std::alloc::{AllocError, Global};

/// The operations of so many labels, given the labels of each operation.
fn ops_among(
    alloc: Global,
    by_op: &[Items<u16>],
    count: u16,
) -> Result<Vec<Option<usize>>, AllocError>
    ensures { IfOk result (λ ops. AreOpsAmong by_op.now count ops.items) }
{
    let mut ops = Vec::new(alloc);
    for label in 0..count {
        ops.push(op_of_label(by_op, label))?;
    }
    Ok(ops)
}

/// The operation of each label, `None` where none has it. Its one error is that memory runs out.
pub(crate) fn ops_of_labels(alloc: Global, flow: &Flow) -> Result<Vec<Option<usize>>, NoMemory>
    requires { FileFits flow.now.file }
    ensures { IfOk result (λ ops. AreOps flow.now ops.items) }
{
    let by_op = labels_by_op(alloc, flow.file.ops.as_slice())?;
    let ops = ops_among(alloc, by_op.as_slice(), flow.file.labels.len() as u16)?;
    Ok(ops)
}

/// The locals of a label's operation.
#[tactic(auto, unfolding(crate::specs::Claims::locals_by_label))]
pub(crate) fn locals_of_label<'a>(flow: &'a Flow, ops: &[Option<usize>], label: u16) -> &'a [Local]
    requires ops { AreOps flow.now ops.now }
    requires label { label < length flow.now.file.labels }
    ensures { result.now ≡ locals_by_label flow.now label }
{
    match ops[label as usize] {
        Some(op) => locals_of(flow.file.ops.as_slice(), op),
        None => &[],
    }
}

/// How many of these are pointers.
fn count_pointers(locals: &[Local]) -> usize
    ensures { result ≡ count_by is_pointer locals.now }
{
    locals.iter().filter(|local| local.pointer).count()
}

/// Whether some label's operation has a pointer local, so that a claim can be written.
pub(crate) fn has_pointers(flow: &Flow, ops: &[Option<usize>]) -> bool
    requires file { FileFits flow.now.file }
    requires ops { AreOps flow.now ops.now }
    ensures { IsTrue result ↔ HasPointers flow.now }
{
    for label in 0..ops.len() as u16 {
        if count_pointers(locals_of_label(flow, ops, label)) > 0 {
            return true;
        }
    }
    false
}

/// The first label of this name whose operation has a pointer local.
pub(crate) fn label_named(flow: &Flow, ops: &[Option<usize>], name: &[u8]) -> Option<u16>
    requires file { FileFits flow.now.file }
    requires ops { AreOps flow.now ops.now }
    ensures some { IfSome result (IsLabelNamed flow.now name.now) }
    ensures none { IfNone result ((label : ℕ) → IsLabelNamed flow.now name.now label → ⊥) }
{
    for label in 0..ops.len() as u16 {
        if label_name(&flow.file, label) == name
            && count_pointers(locals_of_label(flow, ops, label)) > 0
        {
            return Some(label);
        }
    }
    None
}

/// The first pointer local of this name, by its number among the pointer locals.
fn local_named(file: &File, locals: &[Local], name: &[u8]) -> Option<u16>
    requires { length locals.now ≤ 32 }
    ensures some { IfSome result (IsLocalNamed file.now locals.now name.now) }
    ensures none { IfNone result ((local : ℕ) → IsLocalNamed file.now locals.now name.now local → ⊥) }
{
    let mut number = 0;
    for local in locals {
        if local.pointer {
            if name_at(file, local.name) == name {
                return Some(number);
            }
            number += 1;
        }
    }
    None
}

/// The first label of this name whose operation has a pointer local of that name, with the first such local.
pub(crate) fn pointer_named(
    flow: &Flow,
    ops: &[Option<usize>],
    label_text: &[u8],
    local_text: &[u8],
) -> Option<(u16, u16)>
    requires file { FileFits flow.now.file }
    requires ops { AreOps flow.now ops.now }
    ensures some { IfSome result (λ found. AreNamed flow.now label_text.now local_text.now found.0 found.1) }
    ensures none { IfNone result ((label local : ℕ) → AreNamed flow.now label_text.now local_text.now label local → ⊥) }
{
    for label in 0..ops.len() as u16 {
        if label_name(&flow.file, label) == label_text {
            let locals = locals_of_label(flow, ops, label);
            if let Some(local) = local_named(&flow.file, locals, local_text) {
                return Some((label, local));
            }
        }
    }
    None
}

/// The place of the first dot of a name, if it has one.
fn first_dot(name: &[u8]) -> Option<usize>
    ensures { result ≡ position (λ byte. byte == 46) name.now }
{
    name.iter().position(|byte| *byte == b'.')
}

/// The part of a name before its first dot, and the part after it, if it has one.
fn parts(name: &[u8]) -> (&[u8], Option<&[u8]>)
    ensures first { result.0.now ≡ before_dot name.now }
    ensures second { option_map (λ part. part.now) result.1 ≡ after_dot name.now }
{
    match first_dot(name) {
        Some(dot) => (&name[..dot], Some(&name[dot + 1..])),
        None => (name, None),
    }
}

/// The part of a location's name before its dot.
pub(crate) fn first_part(observer: &Observer, location: u16) -> &[u8]
    requires { location < count_of observer.now }
    ensures { result.now ≡ before_dot (location_name observer.now location) }
{
    parts(observer.name(LocId(location))).0
}

/// The first location whose name begins with this part.
pub(crate) fn location_with(observer: &Observer, first: &[u8]) -> Option<u16>
    ensures some { IfSome result (BeginsWith observer.now first.now) }
    ensures none { IfNone result ((location : ℕ) → BeginsWith observer.now first.now location → ⊥) }
{
    for location in 0..observer.count() {
        if first_part(observer, location) == first {
            return Some(location);
        }
    }
    None
}

/// Whether a location's name has a second part.
pub(crate) fn has_second_part(observer: &Observer, location: u16) -> bool
    requires { location < count_of observer.now }
    ensures { result ≡ is_some (after_dot (location_name observer.now location)) }
{
    parts(observer.name(LocId(location))).1.is_some()
}

/// Whether a location's name has these two parts.
fn has_parts(observer: &Observer, location: u16, first: &[u8], second: &[u8]) -> bool
    requires { location < count_of observer.now }
    ensures { IsTrue result ↔ HasParts observer.now first.now second.now location }
{
    match parts(observer.name(LocId(location))) {
        (before, Some(after)) => before == first && after == second,
        (_, None) => false,
    }
}

/// The location whose name has these two parts.
pub(crate) fn location_of_parts(observer: &Observer, first: &[u8], second: &[u8]) -> Option<u16>
    ensures some { IfSome result (HasParts observer.now first.now second.now) }
    ensures none { IfNone result ((location : ℕ) → HasParts observer.now first.now second.now location → ⊥) }
{
    for location in 0..observer.count() {
        if has_parts(observer, location, first, second) {
            return Some(location);
        }
    }
    None
}
