// What the layers above use of observers and the histories that they read, each a law on the definitions
// alone. A function without a body carries it in its contract, so that it is proved where the observers are.
ghost use Rattle.std.specs.Prelude.{◌≡◌, ℕ, true, false, Some};
ghost use Rattle.plc_auto.specs.Table.{is_well_formed};
ghost use Rattle.plc_auto.specs.Location.{is_this};
ghost use Rattle.plc_auto.specs.Laws.{LocationsFollowHistories, AllowedByTheLast, LettersTurn};
ghost use Rattle.plc_auto.specs.Laws.{RetiredForAllThreads, FreesFollowRetirements, FarEventsMoveNothing};
ghost use Rattle.plc_auto.specs.declared.observer.Observer.{Observer};

/// The location after one event more, that it is live, and that `bad` is never left.
pub fn locations_follow_histories()
    ensures { (o : Observer) → LocationsFollowHistories o }
{}

/// Which histories are allowed, by their prefixes and by their last event.
pub fn histories_are_judged_by_the_last()
    ensures { (o : Observer) (threads : ℕ) → AllowedByTheLast o threads }
{}

/// Only a retirement and a free of the address change the first letter of a location.
pub fn letters_turn()
    ensures { (o : Observer) → is_well_formed o ≡ true → LettersTurn o }
{}

/// Which addresses are retired doesn't depend on the thread.
pub fn retired_for_all_threads()
    ensures { (o : Observer) → is_well_formed o ≡ true → RetiredForAllThreads o }
{}

/// A history without a call of `retire` allows no free, and an address isn't freed where it isn't
/// retired or is safe.
pub fn frees_follow_retirements()
    ensures { (o : Observer) → FreesFollowRetirements o }
{}

/// Null is never the address that is watched.
pub fn null_is_other()
    ensures { (a : ℕ) → is_this (Some 0) a ≡ false }
{}

/// An event neither by a thread nor on an address leaves the location of that thread for that address.
pub fn far_events_move_nothing()
    ensures { (o : Observer) → FarEventsMoveNothing o }
{}
