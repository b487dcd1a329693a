// What an observer hears: calls and returns of reclaimer functions, and frees. A history is a list
// of events in the order in which they happened.
ghost use Rattle.std.specs.Prelude.{◌≡◌, Some, true};
ghost use Rattle.plc_auto.specs.Events.{kind_of, thread_of, address_of};
ghost use Rattle.plc_auto.specs.Laws.{retired_by};
ghost use Rattle.plc_auto.specs.Location.{is_this};
ghost use Rattle.plc_auto.specs.Locations.{is_named};

use plc_base::FuncId;

/// One thing that an observer hears.
#[derive(Clone, Copy)]
pub enum Event {
    /// Thread `t` calls `f`, with an address, with null (the number 0), or without a pointer.
    Call { t: u32, f: FuncId, a: Option<u32> },
    /// The call of `f` by thread `t` returns.
    Done { t: u32, f: FuncId },
    /// The reclaimer frees an address.
    Free { a: u32 },
}

/// An event without its thread and address.
#[derive(Clone, Copy, PartialEq, Eq)]
pub enum EvKind {
    Call(FuncId),
    Done(FuncId),
    Free,
}

impl Event {
    /// The event without its thread and address.
    pub fn kind(&self) -> EvKind
        ensures { result ≡ kind_of self.now }
    {
        match *self {
            Event::Call { t: _, f, a: _ } => EvKind::Call(f),
            Event::Done { t: _, f } => EvKind::Done(f),
            Event::Free { a: _ } => EvKind::Free,
        }
    }

    /// The thread of a call or a return.
    pub fn thread(&self) -> Option<u32>
        ensures { result ≡ thread_of self.now }
    {
        match *self {
            Event::Call { t, f: _, a: _ } => Some(t),
            Event::Done { t, f: _ } => Some(t),
            Event::Free { a: _ } => None,
        }
    }

    /// The address that the event names; null where it names none.
    pub fn address(&self) -> u32
        ensures { result ≡ address_of self.now }
    {
        match *self {
            Event::Call { t: _, f: _, a } => match a {
                None => 0,
                Some(a) => a,
            },
            Event::Done { t: _, f: _ } => 0,
            Event::Free { a } => a,
        }
    }
}

/// Whether the address that an event names is this one; none names null.
pub fn is_this(named: u32, a: u32) -> bool
    ensures { result ≡ is_this (Some named) a }
{
    named == a && named != 0
}

/// Whether an address is retired after an event that names it.
pub fn retired_by(e: &Event, a: u32, before: bool) -> bool
    requires { is_named e.now a ≡ true }
    ensures { result ≡ retired_by e.now a before }
{
    match e.kind() {
        EvKind::Call(f) => f.is_retire() || before,
        EvKind::Done(_) => before,
        EvKind::Free => false,
    }
}
