// The law that makes the definition a function, so that an answer is the one answer, the law that rules one end out,
// and the law that a replay may go on from where runs start.
ghost use Rattle.plc_replay.specs.Laws.{SchedulesComeToOneEnd, ServedReplaysForbidNothing, StartsStand};

/// A schedule comes to one end at most, whatever the meanings of the reclaimer are.
pub fn schedules_come_to_one_end()
    ensures { SchedulesComeToOneEnd }
{}

/// No schedule comes to a forbidden free where the reclaimer acts as `hazard` and the file has no
/// `use epoch`, or where it acts as `epoch` and the file has no `use hazard`. The flow, the observer
/// and the schemes are to be those of a file that was read: what a tick frees is picked just before,
/// and `init`, of which the reclaimer hears nothing, has no call.
pub fn served_replays_forbid_nothing()
    ensures { ServedReplaysForbidNothing }
{}

/// What `Config::start` answers is line 1 of a schedule, the start with so many threads, from which `take_line` takes
/// the next line. Where it answers `NoStart` line 1 is impossible.
pub fn starts_stand()
    ensures { StartsStand }
{}
