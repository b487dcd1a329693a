// The points that wait to be looked at, first come first taken: a point is taken after what reaches it
// by as many steps, so that two ways of like length to one point cost one look and not two. A point
// that waits isn't put on the list again; its mark says so without a search.
ghost use Rattle.std.specs.Prelude.{◌≡◌, ◌≤◌, ◌<◌, ◌∷◌, [], ℕ, true};
ghost use Rattle.std.specs.Prelude.{false, length, replicate, slice_set};
ghost use Rattle.std.specs.Prelude.{IfOk, OnOk, MatchOption};
ghost use Rattle.plc_infer.specs.WorkLists.{Among, Puts, numbers};

use plc_base::NoMemory;
use std::alloc::Global;
use std::collections::VecDeque;

/// The points that wait, each once.
#[derive(Drop)]
pub(crate) struct WorkList {
    pub(crate) queue: VecDeque<u16>,
    /// Whether a point waits.
    pub(crate) marks: Vec<bool>,
}

impl WorkList {
    /// All points, the first of which is taken first.
    pub(crate) fn of_all(alloc: Global, points: usize) -> Result<WorkList, NoMemory>
        requires { points ≤ 65536 }
        ensures { IfOk result (λ list. (list.queue.items ≡ numbers points)
            × (list.marks.items ≡ replicate points true)) }
    {
        let mut queue = VecDeque::new(alloc);
        for point in 0..points {
            queue.push_back(point as u16)?;
        }
        Ok(WorkList {
            queue,
            marks: vec![in alloc; true; points]?,
        })
    }

    /// No point of so many.
    pub(crate) fn none(alloc: Global, points: usize) -> Result<WorkList, NoMemory>
        ensures { IfOk result (λ list. (list.queue.items ≡ [])
            × (list.marks.items ≡ replicate points false)) }
    {
        Ok(WorkList {
            queue: VecDeque::new(alloc),
            marks: vec![in alloc; false; points]?,
        })
    }

    /// Takes the point that waits longest.
    pub(crate) fn take(&mut self) -> Option<u16>
        requires { (p : ℕ) → Among self.old.queue.items p → p < length self.old.marks.items }
        ensures { MatchOption result
            ((self.old.queue.items ≡ []) × (self.new.queue.items ≡ []) × (self.new.marks.items ≡ self.old.marks.items))
            (λ p. (self.old.queue.items ≡ p ∷ self.new.queue.items)
            × (self.new.marks.items ≡ slice_set self.old.marks.items p false)) }
    {
        match self.queue.pop_front() {
            Some(point) => {
                self.marks[point as usize] = false;
                Some(point)
            }
            None => None,
        }
    }

    /// Puts a point at the end of the list, unless it waits already.
    pub(crate) fn put(&mut self, point: u16) -> Result<(), NoMemory>
        requires { point < length self.old.marks.items }
        ensures { OnOk result (Puts point self.old.queue.items self.new.queue.items
            self.old.marks.items self.new.marks.items) }
    {
        if self.marks[point as usize] {
            return Ok(());
        }
        self.queue.push_back(point)?;
        self.marks[point as usize] = true;
        Ok(())
    }
}
