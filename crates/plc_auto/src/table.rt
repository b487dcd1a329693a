// The tables of the three observers: the names of their live locations, and an arm for each edge,
// both in the order in which the tables are written. The first edge that fits is taken; where none
// fits the location stays. `None` stands for the location `bad`, which is never left.
ghost use Rattle.std.specs.Prelude.{◌≡◌, ◌<◌, length, get_or, []};
ghost use Rattle.plc_auto.specs.Table.{plain_names, hazard_names, epoch_names, plain_edges};
ghost use Rattle.plc_auto.specs.Table.{hazard_edges, epoch_edges, along, bears, Label, target_of};
ghost use Rattle.plc_auto.specs.Borne.{borne};
ghost use Rattle.plc_auto.specs.declared.observer.Observer.{Observer};

use crate::event::EvKind;
use plc_base::{FuncId, LocId};

// `plain`
const U: u16 = 0;

const R: u16 = 1;

// `hazard(f)` and `epoch(e, l)`, numbered alike: no protection, asked for, granted
const U_NONE: u16 = 0;

const U_ASKED: u16 = 1;

const U_GRANTED: u16 = 2;

const R_NONE: u16 = 3;

const R_ASKED: u16 = 4;

const R_GRANTED: u16 = 5;

/// `r.kept` of `hazard` and of `epoch`: the address was retired while this thread protected it.
pub const R_KEPT: u16 = 6;

const PLAIN_NAMES: [&[u8]; 2] = [b"u", b"r"];

const HAZARD_NAMES: [&[u8]; 7] = [
    b"u.idle", b"u.pend", b"u.held", b"r.idle", b"r.pend", b"r.held", b"r.kept",
];

const EPOCH_NAMES: [&[u8]; 7] = [
    b"u.out",
    b"u.coming",
    b"u.in",
    b"r.out",
    b"r.coming",
    b"r.in",
    b"r.kept",
];

/// The name of a location of `plain`.
pub fn plain_name(at: LocId) -> &'static [u8]
    requires { at.0 < length plain_names }
    ensures { result.now ≡ get_or plain_names at.0 [] }
{
    PLAIN_NAMES[at.0 as usize]
}

/// The name of a location of `hazard(f)`.
pub fn hazard_name(at: LocId) -> &'static [u8]
    requires { at.0 < length hazard_names }
    ensures { result.now ≡ get_or hazard_names at.0 [] }
{
    HAZARD_NAMES[at.0 as usize]
}

/// The name of a location of `epoch(e, l)`.
pub fn epoch_name(at: LocId) -> &'static [u8]
    requires { at.0 < length epoch_names }
    ensures { result.now ≡ get_or epoch_names at.0 [] }
{
    EPOCH_NAMES[at.0 as usize]
}

/// Where an event leads from a location of `plain`; `None` where it is no event that the observer allows.
pub fn plain_step(at: LocId, kind: EvKind, own: bool, this: bool) -> Option<LocId>
    ensures { target_of result ≡ along (bears Observer.Plain kind) own this at.0 plain_edges }
{
    match (at.0, kind) {
        (U, EvKind::Call(g)) if g.is_retire() && this => Some(LocId(R)),
        (U, EvKind::Free) if this => None,
        (R, EvKind::Free) if this => Some(LocId(U)),
        _ => Some(at),
    }
}

/// Which labels of edges an event bears.
#[derive(Clone, Copy)]
struct Labels {
    asks: bool,
    granted: bool,
    gives_up: bool,
    retires: bool,
    frees: bool,
}

/// The labels of an event in the table of `hazard(f)`.
fn hazard_labels(f: FuncId, kind: EvKind) -> Labels
    ensures { (l : Label) → borne result l ≡ bears (Observer.Hazard f) kind l }
{
    match kind {
        EvKind::Call(g) => Labels {
            asks: g == f,
            granted: false,
            gives_up: false,
            retires: g.is_retire(),
            frees: false,
        },
        EvKind::Done(g) => Labels {
            asks: false,
            granted: g == f,
            gives_up: false,
            retires: false,
            frees: false,
        },
        EvKind::Free => Labels {
            asks: false,
            granted: false,
            gives_up: false,
            retires: false,
            frees: true,
        },
    }
}

/// The labels of an event in the table of `epoch(e, l)`.
fn epoch_labels(enter: FuncId, leave: FuncId, kind: EvKind) -> Labels
    ensures { (l : Label) → borne result l ≡ bears (Observer.Epoch enter leave) kind l }
{
    match kind {
        EvKind::Call(g) => Labels {
            asks: g == enter,
            granted: false,
            gives_up: g == leave,
            retires: g.is_retire(),
            frees: false,
        },
        EvKind::Done(g) => Labels {
            asks: false,
            granted: g == enter,
            gives_up: false,
            retires: false,
            frees: false,
        },
        EvKind::Free => Labels {
            asks: false,
            granted: false,
            gives_up: false,
            retires: false,
            frees: true,
        },
    }
}

/// Where an event with these labels leads from a location of `hazard(f)`. Each guard is one value, by `&`, since each
/// way through it is proved apart.
fn hazard_edge(at: LocId, event: Labels, own: bool, this: bool) -> Option<LocId>
    ensures { target_of result ≡ along (borne event) own this at.0 hazard_edges }
{
    match at.0 {
        U_NONE if event.asks & (own & this) => Some(LocId(U_ASKED)),
        U_NONE if event.retires & this => Some(LocId(R_NONE)),
        U_NONE if event.frees & this => None,
        U_ASKED if event.asks & (own & !this) => Some(LocId(U_NONE)),
        U_ASKED if event.granted & own => Some(LocId(U_GRANTED)),
        U_ASKED if event.retires & this => Some(LocId(R_ASKED)),
        U_ASKED if event.frees & this => None,
        U_GRANTED if event.asks & (own & !this) => Some(LocId(U_NONE)),
        U_GRANTED if event.retires & this => Some(LocId(R_KEPT)),
        U_GRANTED if event.frees & this => None,
        R_NONE if event.asks & (own & this) => Some(LocId(R_ASKED)),
        R_NONE if event.frees & this => Some(LocId(U_NONE)),
        R_ASKED if event.asks & (own & !this) => Some(LocId(R_NONE)),
        R_ASKED if event.granted & own => Some(LocId(R_GRANTED)),
        R_ASKED if event.frees & this => Some(LocId(U_ASKED)),
        R_GRANTED if event.asks & (own & !this) => Some(LocId(R_NONE)),
        R_GRANTED if event.retires & this => Some(LocId(R_KEPT)),
        R_GRANTED if event.frees & this => Some(LocId(U_GRANTED)),
        R_KEPT if event.asks & (own & !this) => Some(LocId(R_NONE)),
        R_KEPT if event.frees & this => None,
        _ => Some(at),
    }
}

/// Where an event leads from a location of `hazard(f)`; `None` where it is no event that the observer allows.
pub fn hazard_step(f: FuncId, at: LocId, kind: EvKind, own: bool, this: bool) -> Option<LocId>
    ensures { target_of result ≡ along (bears (Observer.Hazard f) kind) own this at.0 hazard_edges }
{
    hazard_edge(at, hazard_labels(f, kind), own, this)
}

/// Where an event with these labels leads from a location of `epoch(e, l)`.
fn epoch_edge(at: LocId, event: Labels, own: bool, this: bool) -> Option<LocId>
    ensures { target_of result ≡ along (borne event) own this at.0 epoch_edges }
{
    match at.0 {
        U_NONE if event.asks & own => Some(LocId(U_ASKED)),
        U_NONE if event.retires & this => Some(LocId(R_NONE)),
        U_NONE if event.frees & this => None,
        U_ASKED if event.granted & own => Some(LocId(U_GRANTED)),
        U_ASKED if event.gives_up & own => Some(LocId(U_NONE)),
        U_ASKED if event.retires & this => Some(LocId(R_ASKED)),
        U_ASKED if event.frees & this => None,
        U_GRANTED if event.gives_up & own => Some(LocId(U_NONE)),
        U_GRANTED if event.retires & this => Some(LocId(R_KEPT)),
        U_GRANTED if event.frees & this => None,
        R_NONE if event.asks & own => Some(LocId(R_ASKED)),
        R_NONE if event.frees & this => Some(LocId(U_NONE)),
        R_ASKED if event.granted & own => Some(LocId(R_GRANTED)),
        R_ASKED if event.gives_up & own => Some(LocId(R_NONE)),
        R_ASKED if event.frees & this => Some(LocId(U_ASKED)),
        R_GRANTED if event.gives_up & own => Some(LocId(R_NONE)),
        R_GRANTED if event.retires & this => Some(LocId(R_KEPT)),
        R_GRANTED if event.frees & this => Some(LocId(U_GRANTED)),
        R_KEPT if event.gives_up & own => Some(LocId(R_NONE)),
        R_KEPT if event.frees & this => None,
        _ => Some(at),
    }
}

/// Where an event leads from a location of `epoch(e, l)`; `None` where it is no event that the observer allows.
pub fn epoch_step(
    enter: FuncId,
    leave: FuncId,
    at: LocId,
    kind: EvKind,
    own: bool,
    this: bool,
) -> Option<LocId>
    ensures { target_of result ≡ along (bears (Observer.Epoch enter leave) kind) own this at.0 epoch_edges }
{
    epoch_edge(at, epoch_labels(enter, leave, kind), own, this)
}
