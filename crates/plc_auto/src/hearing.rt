// What an event does to the rows, step by step. What takes memory comes first: wider rows, where a thread is heard for
// the first time, and the row that the event may need.
ghost use Rattle.std.specs.Prelude.{◌≡◌, ◌==◌, filter, map, IfOk, OnOk, OnErr, Some};
ghost use Rattle.std.specs.List.{list_any, position};
ghost use Rattle.plc_auto.specs.Locations.{is_known, is_needed, has_row, with_row, to_end, in_order};
ghost use Rattle.plc_auto.specs.Locations.{row_after, row_of, first_free_of, wider};
ghost use Rattle.plc_auto.specs.Moves.{named_after, one_elsewhere, all_elsewhere};

use crate::event::{EvKind, Event};
use crate::observer::Observer;
use crate::row::Row;
use crate::watcher::{Watcher, is_by, is_own};
use plc_base::NoMemory;
use std::alloc::Global;

/// Whether a thread has watchers of its own.
pub fn is_known(t: u32, watchers: &[Watcher]) -> bool
    ensures { result ≡ is_known (Some t) watchers.now }
{
    watchers.iter().any(|w| is_by(Some(t), w.thread))
}

/// Whether an address has a row.
fn holds_row(a: u32, rows: &[Row]) -> bool
    ensures { result ≡ list_any (λ r. r.address == a) rows.now }
{
    rows.iter().any(|row| row.address() == a)
}

/// Whether an address has a row, or is null, which needs none.
fn has_row(a: u32, rows: &[Row]) -> bool
    ensures { result ≡ has_row a rows.now }
{
    a == 0 || holds_row(a, rows)
}

/// The row of an address, or that of the others.
pub fn row_of<'a>(rows: &'a [Row], others: &'a Row, a: u32) -> &'a Row
    ensures { result.now.at ≡ row_of rows.now others.now.at a }
{
    for row in rows {
        if row.address() == a {
            return row;
        }
    }
    others
}

/// The address of the first row that is retired and that no watcher keeps.
pub fn first_free_of(rows: &[Row]) -> Option<u32>
    ensures { result ≡ first_free_of rows.now }
{
    rows.iter()
        .find(|row| row.is_free())
        .map(|row| row.address())
}

/// These rows, each with its first `n` watchers once more.
pub fn wider_rows(alloc: Global, n: usize, rows: &[Row]) -> Result<Vec<Row>, NoMemory>
    ensures { IfOk result (λ more. more.items ≡ map (wider n) rows.now) }
{
    let mut more = Vec::new(alloc);
    for row in rows {
        more.push(row.wider(alloc, n)?)?;
    }
    Ok(more)
}

/// A row more, if the address has none: where the others stand, and not retired. Where memory runs out
/// the rows are as they were.
pub fn add_row(alloc: Global, a: u32, others: &Row, rows: &mut Vec<Row>) -> Result<(), NoMemory>
    ensures ok { OnOk result (rows.new.items ≡ with_row a others.now.at rows.old.items) }
    ensures err { OnErr result (rows.new.items ≡ rows.old.items) }
{
    if has_row(a, rows) {
        return Ok(());
    }
    let row = others.for_address(alloc, a)?;
    rows.push(row)?;
    Ok(())
}

/// The place of the first row of an address.
fn place_of(rows: &[Row], a: u32) -> Option<usize>
    ensures { result ≡ position (λ r. r.address == a) rows.now }
{
    rows.iter().position(|row| row.address() == a)
}

/// Puts the row of an address last, unless it is retired already.
fn put_last(rows: &mut [Row], a: u32)
    ensures { rows.new ≡ to_end a rows.old }
{
    if let Some(place) = place_of(rows, a) {
        if !rows[place].retired() {
            rows[place..].rotate_left(1);
        }
    }
}

/// Puts the row last of an address that begins to be retired.
pub fn put_in_order(rows: &mut Vec<Row>, e: &Event)
    ensures { rows.new.items ≡ in_order e.now rows.old.items }
{
    if let EvKind::Call(f) = e.kind() {
        if f.is_retire() {
            put_last(rows, e.address());
        }
    }
}

/// Moves the row that an event names.
fn move_named(rows: &mut [Row], e: &Event, watchers: &[Watcher])
    ensures { rows.new ≡ map (named_after e.now watchers.now) rows.old }
{
    if e.address() == 0 {
        return;
    }
    for row in rows.iter_mut() {
        row.hear_named(e, watchers);
    }
}

/// Moves one watcher by a kind of event of its thread, in every row but that of the address that the
/// event names.
fn move_one(rows: &mut [Row], observer: &Observer, kind: EvKind, named: u32, i: usize)
    ensures { rows.new ≡ map (one_elsewhere observer.now kind named i) rows.old }
{
    for row in rows.iter_mut() {
        row.hear_elsewhere(observer, kind, named, i);
    }
}

/// Moves the watchers of an event's thread in every row that the event doesn't name. No other watcher
/// moves there.
fn move_own(rows: &mut [Row], e: &Event, watchers: &[Watcher])
    ensures { rows.new ≡ map (all_elsewhere e.now watchers.now) rows.old }
{
    let kind = e.kind();
    let named = e.address();
    for i in 0..watchers.len() {
        if is_own(e, &watchers[i]) {
            move_one(rows, &watchers[i].observer, kind, named, i);
        }
    }
}

/// Moves all rows by an event.
pub fn move_rows(rows: &mut [Row], e: &Event, watchers: &[Watcher])
    ensures { rows.new ≡ map (row_after e.now watchers.now) rows.old }
{
    move_named(rows, e, watchers);
    move_own(rows, e, watchers);
}

/// Drops the rows that aren't needed beside that of the others.
pub fn drop_rows(rows: &mut Vec<Row>, others: &Row)
    ensures { rows.new.items ≡ filter (is_needed others.now.at) rows.old.items }
{
    rows.retain(|row| row.is_needed(others));
}
