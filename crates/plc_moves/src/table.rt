// What each thread holds: nothing where it is idle. Both meanings of memory keep the locals of busy threads in such
// a table, and so does a run keep their points.
ghost use Rattle.std.specs.Prelude.{◌≡◌, IfOk, None, get_or, replicate};
ghost use Rattle.std.specs.Option.{option_copied};

use plc_base::NoMemory;
use std::alloc::Global;

/// So many idle threads, which hold nothing.
pub fn none_held<T>(alloc: Global, threads: usize) -> Result<Vec<Option<T>>, NoMemory>
where
    T: Drop,
    ensures { IfOk result (λ table. table.items ≡ replicate threads None) }
{
    let mut table = Vec::new(alloc);
    for _t in 0..threads {
        table.push(None)?;
    }
    Ok(table)
}

/// What a thread holds; `None` where it is idle, or there is no such thread.
pub fn held<T>(table: &[Option<T>], t: u32) -> Option<&T>
    ensures { option_copied result ≡ get_or table.now t None }
{
    match table.get(t as usize) {
        Some(Some(l)) => Some(l),
        Some(None) => None,
        None => None,
    }
}

/// What a thread holds, which is copied where there is memory for it.
pub trait TryCopy: Drop {
    /// A copy, equal to this.
    fn try_copy(&self) -> Result<Self, NoMemory>
        ensures { IfOk result (λ copy. copy ≡ self.now) };
}

/// A copy of what a thread holds, if it holds something.
fn copy_of<T: TryCopy>(held: &Option<T>) -> Result<Option<T>, NoMemory>
    ensures { IfOk result (λ copy. copy ≡ held.now) }
{
    match held {
        Some(l) => Ok(Some(l.try_copy()?)),
        None => Ok(None),
    }
}

/// Copies of what all threads hold.
pub fn copy_held<T: TryCopy>(alloc: Global, table: &[Option<T>]) -> Result<Vec<Option<T>>, NoMemory>
    ensures { IfOk result (λ copy. copy.items ≡ table.now) }
{
    let mut copy = Vec::new(alloc);
    for held in table {
        copy.push(copy_of(held)?)?;
    }
    Ok(copy)
}
