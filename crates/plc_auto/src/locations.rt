// Where each of some watchers stands for each address, event by event: the one table of runs, which judge frees by it,
// and of reclaimers, which pick by it. An address that stands where one does that was never named has no row, so there
// are as many rows as addresses are retired or asked for, and what was freed costs nothing. An event moves its own
// thread's watchers in every row and all watchers in the row that it names, since no event moves another thread's
// watcher for another address.
ghost use Rattle.std.specs.Prelude.{◌≡◌, ◌==◌, ◌&&◌, ◌++◌, [], not, map, take, Some, OnOk, OnErr, IfOk};
ghost use Rattle.plc_auto.specs.Locations.{fresh, of_threads, of_unheard, owned, first_threads};
ghost use Rattle.plc_auto.specs.Locations.{is_known, with_own, heard_by_known, locations_after};
ghost use Rattle.plc_auto.specs.Locations.{locations_after_all};
ghost use Rattle.plc_auto.specs.Locations.{may_free, first_free};
ghost use Rattle.plc_auto.specs.Moves.{widened};

use crate::event::Event;
use crate::hearing::{
    add_row, drop_rows, first_free_of, is_known, move_rows, put_in_order, row_of, wider_rows,
};
use crate::observer::Observer;
use crate::row::Row;
use crate::watcher::{Watcher, first};
use plc_base::NoMemory;
use std::alloc::Global;
use std::marker::Model;

/// Where each watcher stands for each address. A watcher is an observer of one thread, or of every thread that wasn't
/// heard.
#[derive(Drop)]
pub struct Locations {
    alloc: Global,
    // So many watchers, the first, are of every thread that wasn't heard.
    unheard: usize,
    watchers: Vec<Watcher>,
    // The row of every address that has none.
    others: Row,
    rows: Vec<Row>,
}

impl Model for Locations {
    ghost use Rattle.plc_auto.specs.Locations.{Locations};

    ghost Value = { Locations };

    ghost view = { λ l. record {
      unheard = l.unheard;
      watchers = l.watchers.items;
      others = l.others.at;
      rows = l.rows.items;
    } };
}

impl Locations {
    /// No watcher, no row. It takes no memory.
    pub fn new(alloc: Global) -> Locations
        ensures { result ≡ fresh [] }
    {
        Locations {
            alloc,
            unheard: 0,
            watchers: Vec::new(alloc),
            others: Row::empty(alloc),
            rows: Vec::new(alloc),
        }
    }

    /// No thread was heard: one watcher for each of these observers, which watches every thread, until a
    /// thread is heard and has watchers of its own.
    pub fn fresh(alloc: Global, observers: &[Observer]) -> Result<Locations, NoMemory>
        ensures { IfOk result (λ l. l ≡ fresh observers.now) }
    {
        let watchers = of_every_thread(alloc, observers)?;
        Ok(Locations {
            alloc,
            unheard: observers.len(),
            others: Row::begun(alloc, watchers.len())?,
            watchers,
            rows: Vec::new(alloc),
        })
    }

    /// The threads from 0 to below `threads`, each with one watcher by this observer, in their order. No
    /// other thread is ever watched.
    pub fn of_threads(
        alloc: Global,
        observer: Observer,
        threads: u32,
    ) -> Result<Locations, NoMemory>
        ensures { IfOk result (λ l. l ≡ of_threads observer threads) }
    {
        let watchers = of_each_thread(alloc, observer, threads)?;
        Ok(Locations {
            alloc,
            unheard: 0,
            others: Row::begun(alloc, watchers.len())?,
            watchers,
            rows: Vec::new(alloc),
        })
    }

    /// Where new lists are made.
    pub fn alloc(&self) -> Global {
        self.alloc
    }

    /// Hears an event. Where memory runs out it is as it was.
    pub fn hear(&mut self, e: &Event) -> Result<(), NoMemory>
        ensures ok { OnOk result (self.new ≡ locations_after e.now self.old) }
        ensures err { OnErr result (self.new ≡ self.old) }
    {
        match e.thread() {
            Some(t) => {
                if self.is_new(t) {
                    self.hear_new(e, t)
                } else {
                    self.hear_known(e)
                }
            }
            None => self.hear_known(e),
        }
    }

    /// Whether a thread has no watchers and is to have some. Where none watches every thread that wasn't
    /// heard, none is ever to have some.
    fn is_new(&self, t: u32) -> bool
        ensures { result ≡ (not (self.now.unheard == 0) && not (is_known (Some t) self.now.watchers)) }
    {
        self.unheard != 0 && !is_known(t, &self.watchers)
    }

    /// Hears an event of a thread that has watchers or is to have none, or of no thread. Where memory runs
    /// out it is as it was.
    fn hear_known(&mut self, e: &Event) -> Result<(), NoMemory>
        ensures ok { OnOk result (self.new ≡ heard_by_known e.now self.old) }
        ensures err { OnErr result (self.new ≡ self.old) }
    {
        add_row(self.alloc, e.address(), &self.others, &mut self.rows)?;
        put_in_order(&mut self.rows, e);
        move_rows(&mut self.rows, e, &self.watchers);
        self.others.move_all(e, false, &self.watchers);
        drop_rows(&mut self.rows, &self.others);
        Ok(())
    }

    /// Hears an event of a thread that has no watcher. Where memory runs out it is as it was.
    fn hear_new(&mut self, e: &Event, t: u32) -> Result<(), NoMemory>
        ensures ok { OnOk result (self.new ≡ heard_by_known e.now (with_own t self.old)) }
        ensures err { OnErr result (self.new ≡ self.old) }
    {
        let mut more = self.widened(self.unheard, t)?;
        more.hear_known(e)?;
        *self = more;
        Ok(())
    }

    /// These locations with the first `n` watchers once more, of a thread.
    fn widened(&self, n: usize, t: u32) -> Result<Locations, NoMemory>
        ensures { IfOk result (λ l. l ≡ widened n t self.now) }
    {
        let watchers = with_own_watchers(self.alloc, &self.watchers, n, t)?;
        let rows = wider_rows(self.alloc, n, &self.rows)?;
        Ok(Locations {
            alloc: self.alloc,
            unheard: self.unheard,
            others: self.others.wider(self.alloc, n)?,
            watchers,
            rows,
        })
    }

    /// Hears these events, one by one. Where memory runs out it is as it was before the first.
    pub fn hear_all(&mut self, events: &[Event]) -> Result<(), NoMemory>
        ensures ok { OnOk result (self.new ≡ locations_after_all self.old events.now) }
        ensures err { OnErr result (self.new ≡ self.old) }
    {
        match events {
            [] => Ok(()),
            [e] => self.hear(e),
            _ => self.hear_on_copy(events),
        }
    }

    /// Hears these events on a copy, which is swapped in at the end.
    fn hear_on_copy(&mut self, events: &[Event]) -> Result<(), NoMemory>
        ensures ok { OnOk result (self.new ≡ locations_after_all self.old events.now) }
        ensures err { OnErr result (self.new ≡ self.old) }
    {
        let mut after = self.widened(0, 0)?;
        after.hear_each(events)?;
        *self = after;
        Ok(())
    }

    /// Hears these events, one by one, until memory runs out.
    fn hear_each(&mut self, events: &[Event]) -> Result<(), NoMemory>
        ensures { OnOk result (self.new ≡ locations_after_all self.old events.now) }
    {
        for e in events {
            self.hear(e)?;
        }
        Ok(())
    }

    /// Whether a free of the address leads no watcher to `bad`.
    pub fn may_free(&self, a: u32) -> bool
        ensures { result ≡ may_free self.now a }
    {
        row_of(&self.rows, &self.others, a).all_bear_free(a, &self.watchers)
    }

    /// The first retired address that no watcher keeps, in the order of retirement.
    pub fn first_free(&self) -> Option<u32>
        ensures { result ≡ first_free self.now }
    {
        first_free_of(&self.rows)
    }
}

/// A watcher of every thread for each of these observers.
fn of_every_thread(alloc: Global, observers: &[Observer]) -> Result<Vec<Watcher>, NoMemory>
    ensures { IfOk result (λ ws. ws.items ≡ map of_unheard observers.now) }
{
    Ok(
        observers
            .iter()
            .map(|o| Watcher {
                observer: *o,
                thread: None,
            })
            .collect(alloc)?,
    )
}

/// A watcher of each of so many threads.
fn of_each_thread(alloc: Global, observer: Observer, threads: u32) -> Result<Vec<Watcher>, NoMemory>
    ensures { IfOk result (λ ws. ws.items ≡ first_threads observer threads) }
{
    let mut watchers = Vec::new(alloc);
    for t in 0..threads {
        watchers.push(Watcher {
            observer,
            thread: Some(t),
        })?;
    }
    Ok(watchers)
}

/// These watchers, and the first `n` of them once more, of a thread.
fn with_own_watchers(
    alloc: Global,
    watchers: &[Watcher],
    n: usize,
    t: u32,
) -> Result<Vec<Watcher>, NoMemory>
    ensures { IfOk result (λ ws. ws.items ≡ watchers.now ++ map (owned t) (take n watchers.now)) }
{
    let mut more = Vec::from_slice(alloc, watchers)?;
    for w in first(watchers, n) {
        more.push(Watcher {
            observer: w.observer,
            thread: Some(t),
        })?;
    }
    Ok(more)
}
