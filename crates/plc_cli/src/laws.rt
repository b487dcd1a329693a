// What the answers of `run` come to over files and sinks that are told: a law, whose body is empty.
ghost use Rattle.plc_cli.specs.Completeness.{HonestRunsAreAnswered, HonestRunsFillTheRoom};

/// Over `HonestFiles` and a `FixedSink` with room for whatever may be due, the statuses 4 and 5 come only
/// as `read too long`, and only where a file is; with each other status but 6 what is due to the contents
/// is answered. The premise is the clause `completeness` of `run`, at what is known of these two.
pub fn honest_runs_are_answered()
    ensures { HonestRunsAreAnswered }
{}

/// Over `HonestFiles` and a `FixedSink`, whatever its room, the status 5 comes only where what was written fills that
/// room, as a proper beginning of what is due to the contents, or of `read too long`. So it is of `certify`, for which
/// no room is known beforehand.
pub fn honest_runs_fill_the_room()
    ensures { HonestRunsFillTheRoom }
{}
