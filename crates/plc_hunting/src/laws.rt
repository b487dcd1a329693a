// What follows from the clauses of a hunt and from what `check` proves: a law, whose body is empty.
ghost use Rattle.plc_hunting.specs.Laws.{SafeFilesHaveNoHuntedRace};

/// No race is hunted in a safe file: where the bytes spell a program that has a typing and whose outline holds, what
/// `hunt_under` and `hunt_freely` may answer is that none was met, whatever the seed, and whatever the reclaimer.
pub fn safe_files_have_no_hunted_race()
    ensures { SafeFilesHaveNoHuntedRace }
{}
