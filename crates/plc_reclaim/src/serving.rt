// The reclaimers of tables, each by the schemes that it serves: `list` serves none, so that no thread is watched and it
// frees in the order of retirement alone; `hazard` serves the Hazard schemes (hazard pointers are Michael's, 2004), and
// frees what no thread protects that protected it before it was retired; `epoch` serves the Epoch schemes (epochs are
// Fraser's, 2004), and frees what was retired while no thread that is still inside was inside.
ghost use Rattle.std.specs.Prelude.{codes};
ghost use Rattle.plc_reclaim.specs.Rows.{epoch_of, epoch_row, hazard_of, hazard_row, list_row, none_of};

use crate::by_tables::{ByTables, Watches};
use plc_auto::{Observer, Scheme};

/// No schemes.
#[derive(Drop)]
pub struct NoSchemes;

impl Watches for NoSchemes {
    ghost observer = { none_of };

    ghost named = { codes "list" };

    ghost picks = { list_row };

    fn observer(_scheme: &Scheme) -> Option<Observer> {
        None
    }

    fn name() -> &'static str {
        "list"
    }

    fn acts_as_row() {}
}

/// The Hazard schemes.
#[derive(Drop)]
pub struct HazardSchemes;

impl Watches for HazardSchemes {
    ghost observer = { hazard_of };

    ghost named = { codes "hazard" };

    ghost picks = { hazard_row };

    fn observer(scheme: &Scheme) -> Option<Observer> {
        match scheme {
            Scheme::Hazard { f } => Some(Observer::Hazard(*f)),
            Scheme::Epoch { enter: _, leave: _ } => None,
        }
    }

    fn name() -> &'static str {
        "hazard"
    }

    fn acts_as_row() {}
}

/// The Epoch schemes.
#[derive(Drop)]
pub struct EpochSchemes;

impl Watches for EpochSchemes {
    ghost observer = { epoch_of };

    ghost named = { codes "epoch" };

    ghost picks = { epoch_row };

    fn observer(scheme: &Scheme) -> Option<Observer> {
        match scheme {
            Scheme::Hazard { f: _ } => None,
            Scheme::Epoch { enter, leave } => Some(Observer::Epoch(*enter, *leave)),
        }
    }

    fn name() -> &'static str {
        "epoch"
    }

    fn acts_as_row() {}
}

/// The reclaimer `list`, which picks the address first retired of those retired and not freed since. It is right for
/// programs that retire nothing which another thread may still use, and finds what a schedule does to others.
pub type ByList = ByTables<NoSchemes>;

/// The reclaimer `hazard`, which picks the address first retired of those retired and not freed since
/// for which no thread stands in `r.kept` of a Hazard scheme.
pub type Hazard = ByTables<HazardSchemes>;

/// The reclaimer `epoch`, which picks the address first retired of those retired and not freed since
/// for which no thread stands in `r.kept` of an Epoch scheme.
pub type Epoch = ByTables<EpochSchemes>;
