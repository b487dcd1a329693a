// A hunt in the bytes of a file: a short run of its program that races (drawing.rt) is written, and followed once more
// as it is written. The answer rests on that alone.
ghost use Rattle.std.specs.Prelude.{◌≡◌, ◌≤◌, false, IfOk, IfSome, IsTrue, length};
ghost use Rattle.plc_base.specs.FileSizes.{largest_file};
ghost use Rattle.plc_flow.specs.WellFormed.{FlowFits};
ghost use Rattle.plc_cli.specs.Refusals.{load_fault_text};
ghost use Rattle.plc_cli.specs.Statuses.{holds, fails, refused};
ghost use Rattle.plc_hunting.specs.Texts.{none_met, run_text};
ghost use Rattle.plc_hunting.specs.Trails.{TrailRaces};
ghost use Rattle.plc_hunting.specs.Racing.{IsHuntedBy, IsHuntUnder, IsHuntedFreely, IsFreeHunt};

use crate::account::push_account;
use crate::drawing::{HuntResult, hunt_judged};
use crate::racing::{run_races, schedule_races};
use crate::writing::run_text;
use plc_answers::{push, push_number, push_numbered};
use plc_base::NoMemory;
use plc_check::{Judged, LoadFault, load};
use plc_cli::refusal;
use plc_explore::{Frees, Trail};
use plc_reclaim::Reclaimer;
use std::alloc::{AllocError, Global};

/// What was asked is there.
const FOUND: u8 = 0;

/// Nothing was found.
pub(crate) const NOTHING: u8 = 1;

/// A status, its text, and what is said beside it.
#[derive(Drop)]
pub struct Hunted {
    pub status: u8,
    pub text: Vec<u8>,
    pub said: Vec<u8>,
}

/// What is said of a hunt: of the race, if one was found, and how much was tried.
fn said_of(
    alloc: Global,
    judged: &Judged,
    found: &HuntResult,
    races: bool,
) -> Result<Vec<u8>, AllocError> {
    let mut said = Vec::new(alloc);
    match &found.account {
        Some(account) if races => push_account(&mut said, &judged.flow.file, account)?,
        _ if found.runs == 0 => push(
            &mut said,
            "no run was drawn: the program has none, or no operation\n",
        )?,
        _ => {}
    }
    push_numbered(&mut said, "seed ", found.seed)?;
    push(&mut said, ", runs ")?;
    push_number(&mut said, found.runs)?;
    push(&mut said, ", moves ")?;
    push_number(&mut said, found.moves)?;
    push(&mut said, "\n")?;
    Ok(said)
}

/// The text of a run; empty where there is none.
fn text_of(
    alloc: Global,
    judged: &Judged,
    ticks: bool,
    trail: &Option<Trail>,
) -> Result<Vec<u8>, AllocError>
    ensures { IfOk result (λ text. IfSome trail.now (λ run.
        text.items ≡ run_text judged.now.flow ticks run.threads run.moves)) }
{
    match trail {
        Some(trail) => run_text(
            alloc,
            &judged.flow,
            ticks,
            trail.threads,
            trail.moves.as_slice(),
        ),
        None => Ok(Vec::new(alloc)),
    }
}

/// The text where no race was met.
fn none_met(alloc: Global) -> Result<Vec<u8>, AllocError>
    ensures { IfOk result (λ text. text.items ≡ none_met) }
{
    let mut text = Vec::new(alloc);
    push(
        &mut text,
        "no race was met, which says nothing of other runs\n",
    )?;
    Ok(text)
}

/// The answer where a race was found, if the text shows one, else that none was met.
fn answer_of(alloc: Global, races: bool, text: Vec<u8>, said: Vec<u8>) -> Result<Hunted, AllocError>
    ensures found { IfOk result (λ h. IsTrue races → (h.status ≡ holds) × (h.text.items ≡ text.items)) }
    ensures nothing { IfOk result (λ h. races ≡ false → (h.status ≡ fails) × (h.text.items ≡ none_met)) }
{
    if races {
        return Ok(Hunted {
            status: FOUND,
            text,
            said,
        });
    }
    let text = none_met(alloc)?;
    Ok(Hunted {
        status: NOTHING,
        text,
        said,
    })
}

/// The answer for a file that was loaded, under a reclaimer.
fn hunted_by(
    alloc: Global,
    judged: &Judged,
    frees: Frees,
    seed: u32,
    reclaimer: &mut Box<dyn Reclaimer>,
) -> Result<Hunted, NoMemory>
    requires fits { FlowFits judged.now.flow }
    ensures { IfOk result (λ h. IsHuntedBy (meanings reclaimer.old) judged.now h.status h.text.items) }
{
    let found = hunt_judged(alloc, judged, frees, seed)?;
    let text = text_of(alloc, judged, true, &found.trail)?;
    let races = schedule_races(alloc, judged, &text, reclaimer)?;
    let said = said_of(alloc, judged, &found, races)?;
    let hunted = answer_of(alloc, races, text, said)?;
    Ok(hunted)
}

/// The same, which ends the file.
fn hunted_in(
    alloc: Global,
    judged: Judged,
    frees: Frees,
    seed: u32,
    reclaimer: &mut Box<dyn Reclaimer>,
) -> Result<Hunted, NoMemory>
    requires fits { FlowFits judged.flow }
    ensures { IfOk result (λ h. IsHuntedBy (meanings reclaimer.old) judged h.status h.text.items) }
{
    let hunted = hunted_by(alloc, &judged, frees, seed, reclaimer);
    drop(judged);
    hunted
}

/// The answer to a file that is refused.
fn refused_file(alloc: Global, fault: &LoadFault) -> Result<Hunted, NoMemory>
    ensures { IfOk result (λ h. (h.status ≡ refused) × (h.text.items ≡ load_fault_text fault.now)) }
{
    let answer = refusal(alloc, fault)?;
    Ok(Hunted {
        status: answer.status,
        text: answer.text,
        said: Vec::new(alloc),
    })
}

/// The answer to the bytes of a file under a reclaimer: a schedule that comes to a race under it, or that none was met
/// with this seed. Runs are drawn under another value of the same reclaimer. The one error is that memory runs out.
pub fn hunt_under(
    alloc: Global,
    bytes: &[u8],
    frees: Frees,
    seed: u32,
    reclaimer: &mut Box<dyn Reclaimer>,
) -> Result<Hunted, NoMemory>
    requires { length bytes.now ≤ largest_file }
    ensures { IfOk result (λ h. IsHuntUnder (meanings reclaimer.old) bytes.now h.status h.text.items) }
{
    match load(alloc, bytes) {
        Ok(judged) => hunted_in(alloc, judged, frees, seed, reclaimer),
        Err(LoadFault::Memory) => Err(NoMemory),
        Err(fault) => refused_file(alloc, &fault),
    }
}

/// Whether a run races, if there is one.
fn trail_races(alloc: Global, judged: &Judged, trail: &Option<Trail>) -> Result<bool, NoMemory>
    requires fits { FlowFits judged.now.flow }
    ensures races { IfOk result (λ races. IsTrue races → TrailRaces judged.now trail.now) }
{
    let Some(trail) = trail else {
        return Ok(false);
    };
    if trail.threads == 0 {
        return Ok(false);
    }
    let moves = trail.moves.as_slice();
    run_races(alloc, &judged.flow, &judged.observer, trail.threads, moves)
}

/// The answer for a file that was loaded, where any allowed free may come.
fn hunted_freely(alloc: Global, judged: &Judged, seed: u32) -> Result<Hunted, NoMemory>
    requires fits { FlowFits judged.now.flow }
    ensures { IfOk result (λ h. IsHuntedFreely judged.now h.status h.text.items) }
{
    let found = hunt_judged(alloc, judged, Frees::Any, seed)?;
    let text = text_of(alloc, judged, false, &found.trail)?;
    let races = trail_races(alloc, judged, &found.trail)?;
    let said = said_of(alloc, judged, &found, races)?;
    let hunted = answer_of(alloc, races, text, said)?;
    Ok(hunted)
}

/// The same, which ends the file.
fn hunted_freely_in(alloc: Global, judged: Judged, seed: u32) -> Result<Hunted, NoMemory>
    requires fits { FlowFits judged.flow }
    ensures { IfOk result (λ h. IsHuntedFreely judged h.status h.text.items) }
{
    let hunted = hunted_freely(alloc, &judged, seed);
    drop(judged);
    hunted
}

/// The answer to the bytes of a file where any free may come that the observer allows: a run that races, or that none
/// was met with this seed. The one error is that memory runs out.
pub fn hunt_freely(alloc: Global, bytes: &[u8], seed: u32) -> Result<Hunted, NoMemory>
    requires { length bytes.now ≤ largest_file }
    ensures { IfOk result (λ h. IsFreeHunt bytes.now h.status h.text.items) }
{
    match load(alloc, bytes) {
        Ok(judged) => hunted_freely_in(alloc, judged, seed),
        Err(LoadFault::Memory) => Err(NoMemory),
        Err(fault) => refused_file(alloc, &fault),
    }
}
