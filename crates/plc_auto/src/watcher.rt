// What one watcher reads: the events of its thread, or of every thread that wasn't heard, by the table of its
// observer.
ghost use Rattle.std.specs.Prelude.{◌≡◌, take};
ghost use Rattle.plc_auto.specs.Table.{step, target_of};
ghost use Rattle.plc_auto.specs.Waiting.{is_kept_at};
ghost use Rattle.plc_auto.specs.Events.{thread_of};
ghost use Rattle.plc_auto.specs.Locations.{is_by, moved_by};

use crate::event::{EvKind, Event};
use crate::observer::Observer;
use crate::table::R_KEPT;
use plc_base::LocId;

/// An observer of one thread, or of every thread that wasn't heard.
#[derive(Clone, Copy)]
pub struct Watcher {
    pub observer: Observer,
    /// The thread; `None` stands for all that weren't heard.
    pub thread: Option<u32>,
}

/// The first `n` of these, or all where there are fewer.
pub fn first<T>(items: &[T], n: usize) -> &[T]
    ensures { result.now ≡ take n items.now }
{
    if n < items.len() { &items[..n] } else { items }
}

/// Whether a thread is that of a call or a return, if there is one.
pub fn is_by(by: Option<u32>, thread: Option<u32>) -> bool
    ensures { result ≡ is_by by thread }
{
    match (by, thread) {
        (Some(u), Some(t)) => u == t,
        _ => false,
    }
}

/// Whether an event is a call or a return of the watcher's own thread.
pub fn is_own(e: &Event, watcher: &Watcher) -> bool
    ensures { result ≡ is_by (thread_of e.now) watcher.now.thread }
{
    is_by(e.thread(), watcher.thread)
}

/// Where an event leads from a location; a number that is none is never left.
fn moved_from(
    observer: &Observer,
    kind: EvKind,
    by_own: bool,
    on_this: bool,
    l: LocId,
) -> Option<LocId>
    ensures { target_of result ≡ step observer.now l.0 kind by_own on_this }
{
    if l.0 < observer.count() {
        observer.step(l, kind, by_own, on_this)
    } else {
        Some(l)
    }
}

/// Where a kind of event leads from a location; `bad` is never left. `by_own` and `on_this` are those of
/// `Observer::step`.
pub fn moved(
    observer: &Observer,
    kind: EvKind,
    by_own: bool,
    on_this: bool,
    at: Option<LocId>,
) -> Option<LocId>
    ensures { target_of result ≡ moved_by observer.now kind by_own on_this (target_of at) }
{
    match at {
        None => None,
        Some(l) => moved_from(observer, kind, by_own, on_this, l),
    }
}

/// Whether a location is that of an address which was retired while its thread protected it.
pub fn is_kept_at(at: Option<LocId>) -> bool
    ensures { result ≡ is_kept_at (target_of at) }
{
    match at {
        None => false,
        Some(l) => l.0 == R_KEPT,
    }
}
