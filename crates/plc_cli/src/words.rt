// The words after the program's name, compared whole and by hand: there are no options.
ghost use Rattle.std.specs.Prelude.{◌≡◌, ◌≤◌, ℕ, IfSome, length, map, string_bytes};
ghost use Rattle.std.specs.Option.{option_map};
ghost use Rattle.plc_cli.specs.Requests.{request_of, request_of_two, request_of_three, request_of_four};
ghost use Rattle.plc_cli.specs.Requests.{sample_of, number_in};
ghost use Rattle.plc_cli.specs.Views.{request_view, IsInRange};

use plc_base::MOST_COPIES;
use plc_reclaim::{Reclaimer, find_named};
use plc_sample::lines_of;
use plc_sched::number_of;

/// What words ask for.
#[derive(Clone, Copy)]
pub(crate) enum Request<'a> {
    /// The verdict on a file.
    Check {
        file: &'a str,
    },
    /// The certificate of a file.
    Certify {
        file: &'a str,
    },
    /// A file in canonical text.
    Print {
        file: &'a str,
    },
    /// Whether a certificate is valid for a file.
    Verify {
        file: &'a str,
        certificate: &'a str,
    },
    /// What a schedule leads to under the reclaimer with this number.
    Replay {
        file: &'a str,
        schedule: &'a str,
        reclaimer: usize,
    },
    /// The verdict on a sample with so many copies, without this line.
    Sample {
        copies: u8,
        line: u16,
    },
    /// The claims that a file lacks.
    Suggest {
        file: &'a str,
    },
    /// That claims of locations are true in a file's program, where that can be shown.
    Locate {
        file: &'a str,
        claims: &'a str,
    },
}

/// A command with one file.
fn request_of_two<'a>(command: &str, file: &'a str) -> Option<Request<'a>>
    ensures asks { option_map request_view result ≡ request_of_two command.now file.now }
    ensures in_range { (count : ℕ) → IfSome result (IsInRange count) }
{
    match command {
        "check" => Some(Request::Check { file }),
        "certify" => Some(Request::Certify { file }),
        "print" => Some(Request::Print { file }),
        "suggest" => Some(Request::Suggest { file }),
        _ => None,
    }
}

/// The number that a word spells, among those from `least` to `most`.
fn number_in(word: &str, least: u32, most: u32) -> Option<u32>
    requires { least ≤ most }
    ensures spelled { result ≡ number_in least most word.now }
    ensures in_range { IfSome result (λ n. (least ≤ n) × (n ≤ most)) }
{
    number_of(word.as_bytes(), least, most)
}

/// A sample: how many copies, and the line that is left out.
fn sample_of<'a>(copies: &str, line: &str) -> Option<Request<'a>>
    ensures asks { option_map request_view result ≡ sample_of copies.now line.now }
    ensures in_range { (count : ℕ) → IfSome result (IsInRange count) }
{
    let copies = number_in(copies, 1, MOST_COPIES)?;
    let line = number_in(line, 0, lines_of(copies))?;
    Some(Request::Sample {
        copies: copies as u8,
        line: line as u16,
    })
}

/// A command with a file and its certificate or claims of locations, or with the numbers of a sample.
fn request_of_three<'a>(command: &str, first: &'a str, second: &'a str) -> Option<Request<'a>>
    ensures asks { option_map request_view result ≡ request_of_three command.now first.now second.now }
    ensures in_range { (count : ℕ) → IfSome result (IsInRange count) }
{
    match command {
        "verify" => Some(Request::Verify {
            file: first,
            certificate: second,
        }),
        "locate" => Some(Request::Locate {
            file: first,
            claims: second,
        }),
        "sample" => sample_of(first, second),
        _ => None,
    }
}

/// A command with two files and a reclaimer.
fn request_of_four<'a>(
    reclaimers: &[Box<dyn Reclaimer>],
    command: &str,
    file: &'a str,
    schedule: &'a str,
    name: &str,
) -> Option<Request<'a>>
    ensures asks { option_map request_view result
        ≡ request_of_four (map named reclaimers.now) command.now file.now schedule.now name.now }
    ensures in_range { IfSome result (IsInRange (length reclaimers.now)) }
{
    if command != "replay" {
        return None;
    }
    let reclaimer = find_named(reclaimers, name)?;
    Some(Request::Replay {
        file,
        schedule,
        reclaimer,
    })
}

/// What words ask for, or `None` where they are of no listed form.
pub(crate) fn request_of<'a>(
    reclaimers: &[Box<dyn Reclaimer>],
    words: &'a [String],
) -> Option<Request<'a>>
    ensures asks { option_map request_view result
        ≡ request_of (map named reclaimers.now) (map string_bytes words.now) }
    ensures in_range { IfSome result (IsInRange (length reclaimers.now)) }
{
    match words {
        [command, file] => request_of_two(command.as_str(), file.as_str()),
        [command, first, second] => {
            request_of_three(command.as_str(), first.as_str(), second.as_str())
        }
        [command, file, schedule, name] => request_of_four(
            reclaimers,
            command.as_str(),
            file.as_str(),
            schedule.as_str(),
            name.as_str(),
        ),
        _ => None,
    }
}
