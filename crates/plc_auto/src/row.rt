// Where each watcher stands for one address. A row counts its keepers as it moves, so that a pick reads
// one number of each.
ghost use Rattle.std.specs.Prelude.{◌≡◌, ◌+◌, ◌<◌, ◌^◌, cond, true, false, [], map, replicate, get_or};
ghost use Rattle.std.specs.Prelude.{IfOk, Some, None, is_some};
ghost use Rattle.plc_auto.specs.declared.event.Event.TheVariants.{Free as Freed};
ghost use Rattle.std.specs.List.{count_by};
ghost use Rattle.plc_auto.specs.Table.{target_of};
ghost use Rattle.plc_auto.specs.Waiting.{is_kept_at};
ghost use Rattle.plc_auto.specs.Locations.{with_first, wider, is_free_row, is_named, same_locations, is_needed};
ghost use Rattle.plc_auto.specs.Locations.{all_bear_free, moved};
ghost use Rattle.plc_auto.specs.Moves.{with_one, with_all, named_after, one_elsewhere};

use crate::event::{EvKind, Event, is_this, retired_by};
use crate::observer::Observer;
use crate::watcher::{Watcher, first, is_kept_at, is_own, moved};
use plc_base::{LocId, NoMemory};
use std::alloc::Global;
use std::marker::Model;

/// An address, whether it was retired and not freed since, and where each watcher stands for it, `None`
/// for `bad`.
#[derive(Drop)]
pub struct Row {
    address: u32,
    retired: bool,
    at: Vec<Option<LocId>>,
    // How many watchers stand in `r.kept`.
    keepers: usize,
}

impl Model for Row {
    ghost use Rattle.std.specs.Prelude.{◌≡◌, map};
    ghost use Rattle.std.specs.List.{count_by};
    ghost use Rattle.plc_auto.specs.Table.{target_of};
    ghost use Rattle.plc_auto.specs.Waiting.{is_kept_at};
    ghost use Rattle.plc_auto.specs.Locations.{Row};

    ghost Value = { Row };

    ghost view = { λ r. record { address = r.address; retired = r.retired; at = map target_of r.at.items } };

    ghost invariant = { λ r. r.keepers ≡ count_by is_kept_at (map target_of r.at.items) };
}

/// How many of these are `r.kept`.
fn kept_in(at: &[Option<LocId>]) -> usize
    ensures { result ≡ count_by is_kept_at (map target_of at.now) }
{
    at.iter().filter(|l| is_kept_at(**l)).count()
}

/// How many keep an address after one of them has moved.
fn recounted(keepers: usize, before: Option<LocId>, after: Option<LocId>) -> usize
    requires counted { is_kept_at (target_of before) ≡ true → 0 < keepers }
    requires fits { keepers + 1 < 2 ^ 64 }
    ensures { result + cond (is_kept_at (target_of before)) 1 0 ≡ keepers + cond (is_kept_at (target_of after)) 1 0 }
{
    let others = if is_kept_at(before) {
        keepers - 1
    } else {
        keepers
    };
    if is_kept_at(after) {
        others + 1
    } else {
        others
    }
}

/// So many watchers in their first locations.
fn first_locations(alloc: Global, watchers: usize) -> Result<Vec<Option<LocId>>, NoMemory>
    ensures { IfOk result (λ at. at.items ≡ replicate watchers (Some (record { 0 = 0 }))) }
{
    Ok(vec![in alloc; Some(LocId(0)); watchers]?)
}

/// These locations, and the first `n` of them once more.
fn with_first(alloc: Global, n: usize, at: &[Option<LocId>]) -> Result<Vec<Option<LocId>>, NoMemory>
    ensures { IfOk result (λ more. map target_of more.items ≡ with_first n (map target_of at.now)) }
{
    let mut more = Vec::from_slice(alloc, at)?;
    more.extend_from_slice(first(at, n))?;
    Ok(more)
}

impl Row {
    /// A row of no watcher. It takes no memory.
    pub fn empty(alloc: Global) -> Row
        ensures { result ≡ record { address = 0; retired = false; at = [] } }
    {
        Row::with_locations(0, false, Vec::new(alloc))
    }

    /// A row of so many watchers, each in its first location. The address doesn't matter.
    pub fn begun(alloc: Global, watchers: usize) -> Result<Row, NoMemory>
        ensures { IfOk result (λ r. r.at ≡ replicate watchers (Some 0)) }
    {
        let at = first_locations(alloc, watchers)?;
        Ok(Row::with_locations(0, false, at))
    }

    /// A row of these locations.
    fn with_locations(address: u32, retired: bool, at: Vec<Option<LocId>>) -> Row
        ensures { result ≡ record { address = address; retired = retired; at = map target_of at.items } }
    {
        let keepers = kept_in(&at);
        Row {
            address,
            retired,
            at,
            keepers,
        }
    }

    /// A row of another address that isn't retired, where the watchers stand as in this one.
    pub fn for_address(&self, alloc: Global, a: u32) -> Result<Row, NoMemory>
        ensures { IfOk result (λ r. r ≡ record { address = a; retired = false; at = self.now.at }) }
    {
        let at = Vec::from_slice(alloc, &self.at)?;
        Ok(Row::with_locations(a, false, at))
    }

    /// The row with the first `n` watchers once more.
    pub fn wider(&self, alloc: Global, n: usize) -> Result<Row, NoMemory>
        ensures { IfOk result (λ r. r ≡ wider n self.now) }
    {
        let at = with_first(alloc, n, &self.at)?;
        Ok(Row::with_locations(self.address, self.retired, at))
    }

    /// The address.
    pub fn address(&self) -> u32
        ensures { result ≡ self.now.address }
    {
        self.address
    }

    /// Whether the address was retired and not freed since.
    pub fn retired(&self) -> bool
        ensures { result ≡ self.now.retired }
    {
        self.retired
    }

    /// Whether the address is retired and no watcher keeps it.
    pub fn is_free(&self) -> bool
        ensures { result ≡ is_free_row self.now }
    {
        self.retired && self.keepers == 0
    }

    /// Whether the row is needed beside that of the others.
    pub fn is_needed(&self, others: &Row) -> bool
        ensures { result ≡ is_needed others.now.at self.now }
    {
        self.retired || !same_locations(&self.at, &others.at)
    }

    /// Moves watcher number `i`, if there is one, by a kind of event. `by_own` and `on_this` are those of
    /// `Observer::step`.
    fn move_one(&mut self, observer: &Observer, kind: EvKind, by_own: bool, on_this: bool, i: usize)
        ensures { self.new ≡ with_one observer.now kind by_own on_this i self.old }
    {
        if i < self.at.len() {
            let before = self.at[i];
            let after = moved(observer, kind, by_own, on_this, before);
            self.keepers = recounted(self.keepers, before, after);
            self.at[i] = after;
        }
    }

    /// Moves all watchers by an event, which names the address or doesn't. Where it doesn't, only its own
    /// thread's move.
    pub fn move_all(&mut self, e: &Event, on_this: bool, watchers: &[Watcher])
        ensures { self.new ≡ with_all e.now on_this watchers.now self.old }
    {
        let kind = e.kind();
        for i in 0..watchers.len() {
            let own = is_own(e, &watchers[i]);
            self.move_one(&watchers[i].observer, kind, own, on_this, i);
        }
    }

    /// Moves all watchers, and turns `retired`, where the event names the address.
    pub fn hear_named(&mut self, e: &Event, watchers: &[Watcher])
        ensures { self.new ≡ named_after e.now watchers.now self.old }
    {
        if is_this(e.address(), self.address) {
            self.retired = retired_by(e, self.address, self.retired);
            self.move_all(e, true, watchers);
        }
    }

    /// Moves watcher number `i` by a kind of event of its thread, which names an address, where that isn't
    /// this one.
    pub fn hear_elsewhere(&mut self, observer: &Observer, kind: EvKind, named: u32, i: usize)
        ensures { self.new ≡ one_elsewhere observer.now kind named i self.old }
    {
        if !is_this(named, self.address) {
            self.move_one(observer, kind, true, false, i);
        }
    }

    /// Whether a free of an address leads none of these watchers to `bad` from where they stand.
    pub fn all_bear_free(&self, a: u32, watchers: &[Watcher]) -> bool
        ensures { result ≡ all_bear_free a watchers.now self.now.at }
    {
        all_bear_free(a, watchers, &self.at)
    }
}

/// Where watcher number `i` stands, `None` where there is none.
fn location_at(at: &[Option<LocId>], i: usize) -> Option<LocId>
    ensures { target_of result ≡ get_or (map target_of at.now) i None }
{
    if i < at.len() { at[i] } else { None }
}

/// Whether a free of an address leads a watcher that stands there not to `bad`.
fn bears_free(a: u32, watcher: &Watcher, at: Option<LocId>) -> bool
    ensures { result ≡ is_some (moved (Freed a) (is_named (Freed a) a) watcher.now (target_of at)) }
{
    let free = Event::Free { a };
    let own = is_own(&free, watcher);
    moved(&watcher.observer, free.kind(), own, is_this(a, a), at).is_some()
}

/// Whether a free of an address leads none of these watchers to `bad` from where they stand.
fn all_bear_free(a: u32, watchers: &[Watcher], at: &[Option<LocId>]) -> bool
    ensures { result ≡ all_bear_free a watchers.now (map target_of at.now) }
{
    for i in 0..watchers.len() {
        if !bears_free(a, &watchers[i], location_at(at, i)) {
            return false;
        }
    }
    true
}

/// Whether these rows are one location by location.
fn same_locations(at: &[Option<LocId>], others: &[Option<LocId>]) -> bool
    ensures { result ≡ same_locations (map target_of at.now) (map target_of others.now) }
{
    at == others
}
