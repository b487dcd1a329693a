// The observer of a file says which frees are allowed. It reads the history once for each thread
// and each address and stands in one of its locations; a history that leads to `bad` isn't allowed.
// (Meyer and Wolff, POPL 2019, have observers as automata; hazard pointers are Michael's, 2004,
// epochs Fraser's, 2004.)
ghost use Rattle.std.specs.Prelude.{◌≡◌, ◌<◌, slice_get, IfSome, Some};
ghost use Rattle.plc_auto.specs.Table.{count_of, names_of, step, target_of};

use crate::event::EvKind;
use crate::table::{epoch_name, epoch_step, hazard_name, hazard_step, plain_name, plain_step};
use plc_base::{FuncId, LocId};

/// When a reclaimer may free.
#[derive(Clone, Copy, Debug)]
pub enum Observer {
    /// Each address once after each retirement.
    Plain,
    /// As `Plain`, and no address that a thread has protected by this function before its retirement.
    Hazard(FuncId),
    /// As `Plain`, and no address that was retired while a thread was between the return of the
    /// first function (enter) and the call of the second (leave).
    Epoch(FuncId, FuncId),
}

impl Observer {
    /// How many live locations there are, 2 or 7. They are numbered from 0 in the table's order,
    /// and the first is initial.
    pub fn count(&self) -> u16
        ensures { result ≡ count_of self.now }
    {
        match self {
            Observer::Plain => 2,
            Observer::Hazard(_) => 7,
            Observer::Epoch(_, _) => 7,
        }
    }

    /// The name of a location, which must be below `count`. It begins with `r` where the address
    /// is retired there, and with `u` where it isn't.
    pub fn name(&self, l: LocId) -> &[u8]
        requires { l.0 < count_of self.now }
        ensures { slice_get (names_of self.now) l.0 ≡ Some result.now }
    {
        match self {
            Observer::Plain => plain_name(l),
            Observer::Hazard(_) => hazard_name(l),
            Observer::Epoch(_, _) => epoch_name(l),
        }
    }

    /// Where an event leads from a location, which must be below `count`: the location after it, or
    /// `None` exactly where it leads to `bad`. `own` says whether the thread that is watched calls or
    /// returns, and `this` whether the event names the address that is watched; a free has no
    /// thread, and a return and null have no address, so that `own` and `this` are false there.
    #[tactic(auto, unfolding(crate::specs::Table::step))]
    pub fn step(&self, l: LocId, kind: EvKind, own: bool, this: bool) -> Option<LocId>
        requires { l.0 < count_of self.now }
        ensures target { target_of result ≡ step self.now l.0 kind own this }
        ensures live { IfSome result (λ k. k.0 < count_of self.now) }
    {
        match self {
            Observer::Plain => plain_step(l, kind, own, this),
            Observer::Hazard(f) => hazard_step(*f, l, kind, own, this),
            Observer::Epoch(enter, leave) => epoch_step(*enter, *leave, l, kind, own, this),
        }
    }
}
