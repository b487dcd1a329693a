// What the layers above use of sets of locations, each a law on the definitions alone, as those of
// histories are.
ghost use Rattle.std.specs.Prelude.{◌≡◌, ℕ, Bool, true};
ghost use Rattle.plc_base.specs.Mask.{within};
ghost use Rattle.plc_auto.specs.Sets.{all_locations};
ghost use Rattle.plc_auto.specs.Laws.{SetsOfLocations, SetsGrow, ClosuresAreLeast};
ghost use Rattle.plc_auto.specs.declared.observer.Observer.{Observer};

/// Which of the sets of locations lie within which.
pub fn sets_of_locations()
    ensures { (o : Observer) → SetsOfLocations o }
{}

/// Steps and closures of sets stay within the locations, and grow with the set.
pub fn sets_grow()
    ensures { (o : Observer) → SetsGrow o }
{}

/// The closure of a set of locations is the least closed set that holds it, and so its own closure.
pub fn closures_are_least()
    ensures { (o : Observer) (with_free : Bool) (m : ℕ) → within m (all_locations o) ≡ true
        → ClosuresAreLeast o with_free m }
{}
