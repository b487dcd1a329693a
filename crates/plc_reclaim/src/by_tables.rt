// The reclaimers that free: each frees in the order of retirement what no thread keeps by the tables of
// the observers that it serves, and keeps where the threads stand by these. Which schemes have such an
// observer, the name, and the row that is promised, is all in which they differ.
ghost use Rattle.std.specs.Prelude.{◌≡◌, ℕ, List, [], Option, IfOk};
ghost use Rattle.std.specs.List.{filter_map};
ghost use Rattle.plc_auto.specs.declared.observer.Observer.{Observer};
ghost use Rattle.plc_auto.specs.declared.scheme.Scheme.{Scheme};
ghost use Rattle.plc_auto.specs.Locations.{fresh};
ghost use Rattle.plc_reclaim.specs.Numbers.{numbers_of, by_tables};
ghost use Rattle.plc_reclaim.specs.Rows.{ActsAs};
ghost use Rattle.plc_auto.specs.declared.event.Event.{Event};

use crate::reclaimer::Reclaimer;
use plc_auto::{Event, Locations, Observer, Scheme};
use plc_base::NoMemory;
use std::alloc::Global;
use std::marker::PhantomData;

/// How a reclaimer that frees watches threads: by the observers of the schemes that it serves; its name and its row.
pub trait Watches: Drop {
    /// The observer of a scheme that is served.
    ghost observer: { Scheme → Option Observer };

    /// The reclaimer's name, in bytes.
    ghost named: { List ℕ };

    /// The reclaimer's row: what it picks, by the schemes and all events.
    ghost picks: { List Scheme → List Event → Option ℕ };

    /// The observer of a scheme, or `None` where it isn't served.
    fn observer(scheme: &Scheme) -> Option<Observer>
        ensures { result ≡ observer scheme.now };

    /// The name by which the reclaimer is asked for.
    fn name() -> &'static str
        ensures { result.now ≡ named };

    /// What the tables of these observers pick is the row. It carries this law, and does nothing.
    fn acts_as_row()
        ensures { ActsAs picks (by_tables (filter_map observer)) };
}

/// A reclaimer that frees in the order of retirement what no thread keeps by the tables of these schemes.
#[derive(Drop)]
pub struct ByTables<W: Watches> {
    locations: Locations,
    watches: PhantomData<W>,
}

impl<W: Watches> ByTables<W> {
    /// A reclaimer that was given no scheme and handed nothing yet. It acts as its row, and takes no memory.
    #[tactic(auto, using(crate::proofs::Numbers::begun_with_is))]
    pub fn new(alloc: Global) -> ByTables<W>
        ensures acts { ActsAs W.picks (⟦<ByTables<W> as Reclaimer>⟧.meanings result) }
        ensures named { ⟦<ByTables<W> as Reclaimer>⟧.named result ≡ W.named }
        ensures fresh { ⟦<ByTables<W> as Reclaimer>⟧.held result
            ≡ (⟦<ByTables<W> as Reclaimer>⟧.meanings result).begun [] }
    {
        W::acts_as_row();
        ByTables {
            locations: Locations::new(alloc),
            watches: PhantomData,
        }
    }
}

impl<W: Watches> Reclaimer for ByTables<W> {
    ghost held = { λ r. numbers_of r.locations };

    ghost meanings = { λ _. by_tables (filter_map W.observer) };

    ghost named = { λ _. W.named };

    fn name(&self) -> &str {
        W::name()
    }

    #[tactic(auto, using(crate::proofs::Numbers::begun_with_is))]
    fn begin(&mut self, schemes: &[Scheme]) -> Result<(), NoMemory> {
        let observers = observers::<W>(self.locations.alloc(), schemes)?;
        self.locations = Locations::fresh(self.locations.alloc(), &observers)?;
        Ok(())
    }

    #[tactic(auto, using(crate::proofs::Numbers::held_after_is))]
    fn event(&mut self, e: Event) -> Result<(), NoMemory> {
        self.locations.hear(&e)
    }

    #[tactic(auto, using(crate::proofs::Numbers::free_of_is))]
    fn pick(&mut self) -> Option<u32> {
        self.locations.first_free()
    }
}

/// The observers of the schemes that are served.
fn observers<W: Watches>(alloc: Global, schemes: &[Scheme]) -> Result<Vec<Observer>, NoMemory>
    ensures { IfOk result (λ observers. observers.items ≡ filter_map W.observer schemes.now) }
{
    Ok(
        schemes
            .iter()
            .filter_map(|scheme| W::observer(scheme))
            .collect(alloc)?,
    )
}
