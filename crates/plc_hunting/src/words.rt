// The words after the program's name, compared whole: a file, who frees, and a seed, which may be left out.
ghost use Rattle.std.specs.Prelude.{◌≡◌, map, string_bytes};
ghost use Rattle.std.specs.Option.{option_map};
ghost use Rattle.plc_cli.specs.Requests.{number_in};
ghost use Rattle.plc_hunting.specs.Requests.{freeing_of, greatest_seed, hunt_of, request_of};
ghost use Rattle.plc_hunting.specs.Views.{freeing_view, request_view};

use plc_sched::number_of;

/// The seed where none is given.
const SEED: u32 = 1;

/// Who says what is freed.
#[derive(Clone, Copy)]
pub(crate) enum Freeing {
    /// `leak`
    Leak,
    /// `list`
    List,
    /// `hazard`
    Hazard,
    /// `epoch`
    Epoch,
    /// `any`: whatever the observer allows may be freed.
    Any,
}

/// A hunt in a file with a seed.
#[derive(Clone, Copy)]
pub(crate) struct Request<'a> {
    pub file: &'a str,
    pub freeing: Freeing,
    pub seed: u32,
}

/// What a word means, if it is one of the five.
fn freeing_of(word: &str) -> Option<Freeing>
    ensures { option_map freeing_view result ≡ freeing_of word.now }
{
    match word {
        "leak" => Some(Freeing::Leak),
        "list" => Some(Freeing::List),
        "hazard" => Some(Freeing::Hazard),
        "epoch" => Some(Freeing::Epoch),
        "any" => Some(Freeing::Any),
        _ => None,
    }
}

/// The seed that a word spells.
fn seed_of(word: &str) -> Option<u32>
    ensures { result ≡ number_in 0 greatest_seed word.now }
{
    number_of(word.as_bytes(), 0, u32::MAX)
}

/// A hunt, where the word says who frees and there is a seed.
fn hunt_of<'a>(file: &'a str, word: &str, seed: Option<u32>) -> Option<Request<'a>>
    ensures { option_map request_view result ≡ hunt_of file.now word.now seed }
{
    let freeing = freeing_of(word)?;
    let seed = seed?;
    Some(Request {
        file,
        freeing,
        seed,
    })
}

/// What words ask for, or `None` where they are of no listed form.
pub(crate) fn request_of<'a>(words: &'a [String]) -> Option<Request<'a>>
    ensures { option_map request_view result ≡ request_of (map string_bytes words.now) }
{
    match words {
        [file, word] => hunt_of(file.as_str(), word.as_str(), Some(SEED)),
        [file, word, seed] => hunt_of(file.as_str(), word.as_str(), seed_of(seed.as_str())),
        _ => None,
    }
}
