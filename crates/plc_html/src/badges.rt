// The badge of an answer and its sentence: what a person wants first. Which it is goes by the status and by the first
// word of the answer; the lines of the labels, which begin with `at`, come before `safe` alone.
ghost use Rattle.std.specs.Prelude.{◌≡◌, map};
ghost use Rattle.plc_html.specs.Badges.{badge_in, badge_row, badges, row_of};

/// The rows of the table.
#[derive(Clone, Copy)]
pub(crate) enum Badge {
    Safe,
    Ended,
    Untyped,
    Unproved,
    Race,
    Impossible,
    Forbidden,
    Refused,
    Other,
}

/// The table: a status, the first word of an answer with the blank behind it, and their badge.
const BADGES: [(u8, &[u8], Badge); 9] = [
    (0, b"at ", Badge::Safe),
    (0, b"safe ", Badge::Safe),
    (0, b"end ", Badge::Ended),
    (1, b"untyped ", Badge::Untyped),
    (1, b"unproved ", Badge::Unproved),
    (1, b"race ", Badge::Race),
    (1, b"impossible ", Badge::Impossible),
    (1, b"forbidden ", Badge::Forbidden),
    (2, b"refused ", Badge::Refused),
];

/// The badge of the first row of a table that has the status and begins the answer.
fn badge_in(mut table: &[(u8, &[u8], Badge)], status: u8, answer: &[u8]) -> Badge
    ensures { result ≡ badge_in (map (λ row. (row.0, row.1.now, row.2)) table.entry.now) status answer.now }
{
    while let [row, rest @ ..] = table {
        if row.0 == status && answer.starts_with(row.1) {
            return row.2;
        }
        table = rest;
    }
    Badge::Other
}

/// The badge of an answer with its status.
#[tactic(auto, unfolding(crate::specs::Badges::badges))]
fn badge_of(status: u8, answer: &[u8]) -> Badge
    ensures { result ≡ badge_in badges status answer.now }
{
    badge_in(&BADGES, status, answer)
}

const SAFE: &[u8] =
    b"<p><b class=\"badge safe\">SAFE</b> In no run of this program, with any number of threads, is a step \
                    a pointer race or a second retire, whatever allowed frees the reclaimer chooses. Each claim and \
                    each clause of the outline is true in every run.</p>\n";

const ENDED: &[u8] =
    b"<p><b class=\"badge\">END</b> The schedule is followed to its end: no line of it is a race.</p>\n";

const UNTYPED: &[u8] =
    b"<p><b class=\"badge open\">UNTYPED</b> The types don't say that each pointer may be used where it \
                       is used.</p>\n";

const UNPROVED: &[u8] =
    b"<p><b class=\"badge open\">UNPROVED</b> The types are there, and the outline isn't enough.</p>\n";

const RACE: &[u8] = b"<p><b class=\"badge race\">RACE</b> A step of this run is a race.</p>\n";

const IMPOSSIBLE: &[u8] =
    b"<p><b class=\"badge\">IMPOSSIBLE</b> A line of the schedule can't be taken.</p>\n";

const FORBIDDEN: &[u8] =
    b"<p><b class=\"badge\">FORBIDDEN FREE</b> The reclaimer frees what the observer forbids to \
                         free.</p>\n";

const REFUSED: &[u8] =
    b"<p><b class=\"badge\">REFUSED</b> The bytes are no file, or no schedule for it.</p>\n";

const OTHER: &[u8] = b"<p><b class=\"badge\">ANSWER</b></p>\n";

/// The row of a badge: the badge and its sentence.
fn row_of(badge: Badge) -> &'static [u8]
    ensures { result.now ≡ row_of badge }
{
    match badge {
        Badge::Safe => SAFE,
        Badge::Ended => ENDED,
        Badge::Untyped => UNTYPED,
        Badge::Unproved => UNPROVED,
        Badge::Race => RACE,
        Badge::Impossible => IMPOSSIBLE,
        Badge::Forbidden => FORBIDDEN,
        Badge::Refused => REFUSED,
        Badge::Other => OTHER,
    }
}

/// The row of an answer with its status.
pub(crate) fn badge_row(status: u8, answer: &[u8]) -> &'static [u8]
    ensures { result.now ≡ badge_row status answer.now }
{
    row_of(badge_of(status, answer))
}
