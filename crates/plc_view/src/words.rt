// The words after the program's name, compared whole: there is one option, which goes first.
ghost use Rattle.std.specs.Prelude.{◌≡◌, ◌<◌, IfSome, length, map, string_bytes};
ghost use Rattle.std.specs.Option.{option_map};
ghost use Rattle.plc_view.specs.Requests.{request_of, run_of};
ghost use Rattle.plc_view.specs.Views.{request_view, IsInRange};

use plc_cli::Reclaimer;
use plc_reclaim::find_named;

/// What words ask for.
#[derive(Clone, Copy)]
pub(crate) enum Request<'a> {
    /// The page of a file.
    Page {
        file: &'a str,
    },
    /// A file in lines for editors.
    Lines {
        file: &'a str,
    },
    /// The page of a run under the reclaimer with this number, by its name.
    Run {
        file: &'a str,
        schedule: &'a str,
        name: &'a str,
        reclaimer: usize,
    },
}

/// The page of a run, where there is a reclaimer of this name.
fn run_of<'a>(
    reclaimers: &[Box<dyn Reclaimer>],
    file: &'a str,
    schedule: &'a str,
    name: &'a str,
) -> Option<Request<'a>>
    ensures asks { option_map request_view result
        ≡ run_of (map named reclaimers.now) file.now schedule.now name.now }
    ensures in_range { IfSome result (IsInRange (length reclaimers.now)) }
{
    let reclaimer = find_named(reclaimers, name)?;
    Some(Request::Run {
        file,
        schedule,
        name,
        reclaimer,
    })
}

/// What words ask for, or `None` where they are of no listed form.
pub(crate) fn request_of<'a>(
    reclaimers: &[Box<dyn Reclaimer>],
    words: &'a [String],
) -> Option<Request<'a>>
    ensures asks { option_map request_view result
        ≡ request_of (map named reclaimers.now) (map string_bytes words.now) }
    ensures in_range { IfSome result (IsInRange (length reclaimers.now)) }
{
    match words {
        [file] if file.as_str() != "--plain" => Some(Request::Page {
            file: file.as_str(),
        }),
        [option, file] if option.as_str() == "--plain" => Some(Request::Lines {
            file: file.as_str(),
        }),
        [file, schedule, name] if file.as_str() != "--plain" => {
            run_of(reclaimers, file.as_str(), schedule.as_str(), name.as_str())
        }
        _ => None,
    }
}
