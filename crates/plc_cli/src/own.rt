// The program with its own reclaimers. They are made in the call that hands them to `run`, since no
// function may hand out a value of a trait: so that they are the four, in their order, is promised by this
// call and not by one that makes them.
ghost use Rattle.std.specs.Prelude.{◌≡◌, codes, map, string_bytes, IfOk, OnErr};
ghost use Rattle.plc_reclaim.specs.Rows.{ActsAs, leak_row, list_row, hazard_row, epoch_row};
ghost use Rattle.plc_cli.specs.Program.{RunsWithOwn, IsProgram};

use crate::program::run;
use crate::status::NO_MEMORY;
use plc_outside::{Files, Sink};
use plc_reclaim::{ByList, Epoch, Hazard, Leak, Reclaimer};
use std::alloc::{AllocError, Global};

/// The status of `run` under these four. Each of them is a parameter, since it becomes a value of the trait in the call
/// that hands it on, and what it acts as is known of its own type alone.
fn run_with<F: Files, S: Sink>(
    alloc: Global,
    words: &[String],
    files: &mut F,
    out: &mut S,
    leak: Box<dyn Reclaimer>,
    list: Box<dyn Reclaimer>,
    hazard: Box<dyn Reclaimer>,
    epoch: Box<dyn Reclaimer>,
) -> Result<u8, AllocError>
    requires leak { ActsAs leak_row (meanings leak) }
    requires leak_named { named leak ≡ codes "leak" }
    requires list { ActsAs list_row (meanings list) }
    requires list_named { named list ≡ codes "list" }
    requires hazard { ActsAs hazard_row (meanings hazard) }
    requires hazard_named { named hazard ≡ codes "hazard" }
    requires epoch { ActsAs epoch_row (meanings epoch) }
    requires epoch_named { named epoch ≡ codes "epoch" }
    ensures ok { IfOk result (RunsWithOwn (map string_bytes words.now)
        (F.known files.old) (F.known files.new) (S.known out.old) (S.known out.new)) }
    ensures unread { OnErr result (F.known files.new ≡ F.known files.old) }
    ensures unwritten { OnErr result (S.known out.new ≡ S.known out.old) }
{
    let reclaimers = vec![in alloc; leak, list, hazard, epoch]?;
    Ok(run(alloc, words, files, out, reclaimers))
}

/// `run` with plc's own reclaimers, where there is memory for the four.
fn allocate_reclaimers<F: Files, S: Sink>(
    alloc: Global,
    words: &[String],
    files: &mut F,
    out: &mut S,
) -> Result<u8, AllocError>
    ensures ok { IfOk result (RunsWithOwn (map string_bytes words.now)
        (F.known files.old) (F.known files.new) (S.known out.old) (S.known out.new)) }
    ensures unread { OnErr result (F.known files.new ≡ F.known files.old) }
    ensures unwritten { OnErr result (S.known out.new ≡ S.known out.old) }
{
    let leak = Box::new(alloc, Leak::new(alloc))?;
    let list = Box::new(alloc, ByList::new(alloc))?;
    let hazard = Box::new(alloc, Hazard::new(alloc))?;
    let epoch = Box::new(alloc, Epoch::new(alloc))?;
    run_with(alloc, words, files, out, leak, list, hazard, epoch)
}

/// `run` with the reclaimers of the program: `leak`, `list`, `hazard` and `epoch`, in this order, each of
/// which acts as its row. Where memory runs out for them it ends with 6, and nothing is read or written.
pub fn run_with_own<F: Files, S: Sink>(
    alloc: Global,
    words: &[String],
    files: &mut F,
    out: &mut S,
) -> u8
    ensures { IsProgram (map string_bytes words.now)
        (F.known files.old) (F.known files.new) (S.known out.old) (S.known out.new) result }
{
    match allocate_reclaimers(alloc, words, files, out) {
        Ok(status) => status,
        Err(AllocError) => NO_MEMORY,
    }
}
