// The program with the reclaimers of `plc`. They are made in the call that hands them on, since no function may hand
// out a value of a trait.
ghost use Rattle.std.specs.Prelude.{◌≡◌, codes, map, string_bytes, IfOk, OnErr};
ghost use Rattle.plc_reclaim.specs.Rows.{ActsAs, leak_row, list_row, hazard_row, epoch_row};
ghost use Rattle.plc_view.specs.Showing.{ShowsWithOwn, IsShowing, outputs};

use crate::showing::show_under;
use plc_cli::{ByList, Epoch, Files, Hazard, Leak, NO_MEMORY, Reclaimer, Sink};
use std::alloc::{AllocError, Global};

/// The status of `show_under` with these four. Each of them is a parameter, since it becomes a value of the trait in
/// the call that hands it on, and what it acts as is known of its own type alone.
fn show_with<F: Files, S: Sink, T: Sink>(
    alloc: Global,
    words: &[String],
    files: &mut F,
    out: &mut S,
    causes: &mut T,
    leak: Box<dyn Reclaimer>,
    list: Box<dyn Reclaimer>,
    hazard: Box<dyn Reclaimer>,
    epoch: Box<dyn Reclaimer>,
) -> Result<u8, AllocError>
    requires leak { ActsAs leak_row (meanings leak) }
    requires leak_named { named leak ≡ codes "leak" }
    requires list { ActsAs list_row (meanings list) }
    requires list_named { named list ≡ codes "list" }
    requires hazard { ActsAs hazard_row (meanings hazard) }
    requires hazard_named { named hazard ≡ codes "hazard" }
    requires epoch { ActsAs epoch_row (meanings epoch) }
    requires epoch_named { named epoch ≡ codes "epoch" }
    ensures ok { IfOk result (ShowsWithOwn (map string_bytes words.now)
        (F.known files.old) (F.known files.new)
        (outputs (S.known out.old) (T.known causes.old)) (outputs (S.known out.new) (T.known causes.new))) }
    ensures unread { OnErr result (F.known files.new ≡ F.known files.old) }
    ensures unwritten { OnErr result (S.known out.new ≡ S.known out.old) }
    ensures no_cause { OnErr result (T.known causes.new ≡ T.known causes.old) }
{
    let reclaimers = vec![in alloc; leak, list, hazard, epoch]?;
    Ok(show_under(alloc, words, files, out, causes, reclaimers))
}

/// The same, where there is memory for the four.
fn show_made<F: Files, S: Sink, T: Sink>(
    alloc: Global,
    words: &[String],
    files: &mut F,
    out: &mut S,
    causes: &mut T,
) -> Result<u8, AllocError>
    ensures ok { IfOk result (ShowsWithOwn (map string_bytes words.now)
        (F.known files.old) (F.known files.new)
        (outputs (S.known out.old) (T.known causes.old)) (outputs (S.known out.new) (T.known causes.new))) }
    ensures unread { OnErr result (F.known files.new ≡ F.known files.old) }
    ensures unwritten { OnErr result (S.known out.new ≡ S.known out.old) }
    ensures no_cause { OnErr result (T.known causes.new ≡ T.known causes.old) }
{
    let leak = Box::new(alloc, Leak::new(alloc))?;
    let list = Box::new(alloc, ByList::new(alloc))?;
    let hazard = Box::new(alloc, Hazard::new(alloc))?;
    let epoch = Box::new(alloc, Epoch::new(alloc))?;
    show_with(alloc, words, files, out, causes, leak, list, hazard, epoch)
}

/// All that the program does: the status, after the page or the lines were written to `out`. `words` are those after
/// the program's name. Where they are of no listed form, or a file can't be read, that is written to `causes` in their
/// place. A run is shown under `leak`, `list`, `hazard` or `epoch`, each of which acts as its row; where memory runs
/// out for them it ends with 6, and nothing is read or written.
pub fn show<F: Files, S: Sink, T: Sink>(
    alloc: Global,
    words: &[String],
    files: &mut F,
    out: &mut S,
    causes: &mut T,
) -> u8
    ensures { IsShowing (map string_bytes words.now)
        (F.known files.old) (F.known files.new)
        (outputs (S.known out.old) (T.known causes.old)) (outputs (S.known out.new) (T.known causes.new)) result }
{
    match show_made(alloc, words, files, out, causes) {
        Ok(status) => status,
        Err(AllocError) => NO_MEMORY,
    }
}
