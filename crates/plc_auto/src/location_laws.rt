// What runs and reclaimers use of locations, each a law on the definitions alone.
ghost use Rattle.std.specs.Prelude.{◌≡◌, ℕ, List};
ghost use Rattle.plc_auto.specs.declared.event.Event.{Event};
ghost use Rattle.plc_auto.specs.declared.observer.Observer.{Observer};
ghost use Rattle.plc_auto.specs.Locations.{fresh, locations_after_all};
ghost use Rattle.plc_auto.specs.Following.{FollowsThreads, FollowsObservers};

/// After any events each thread of a run stands where its observer says, and a free is judged so.
pub fn locations_of_threads_follow()
    ensures { (o : Observer) (threads : ℕ) → FollowsThreads o threads }
{}

/// After any events the watcher of each thread for each observer stands where the observer says, and the retired rows
/// have the addresses that wait, in the order of their retirements.
pub fn locations_follow_observers()
    ensures { (os : List Observer) (h : List Event) → FollowsObservers os h (locations_after_all (fresh os) h) }
{}
