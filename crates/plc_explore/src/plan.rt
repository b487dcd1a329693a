// What is drawn once for a run: how many threads, what each may do, and which addresses `new` takes. Runs are short and
// numbers small, since most mistakes show among few threads, in few operations, on few nodes.
ghost use Rattle.std.specs.Prelude.{◌<◌};

use crate::random::Random;
use plc_base::{Items, MOST_ADDRESSES, NoMemory};
use std::alloc::Global;

/// The most operations of a thread in one run.
const MOST_OPERATIONS: u32 = 5;

/// The greatest number that an operation may be given.
const GREATEST_NUMBER: u32 = 3;

/// What threads may do in a run, and the addresses of its nodes.
#[derive(Drop)]
pub struct Plan {
    alloc: Global,
    /// How many operations each thread may still begin.
    left: Vec<u32>,
    /// Numbers that operations are given are below this one.
    numbers: u32,
    /// The addresses that were freed and not used since, the last one at the end.
    freed: Vec<u32>,
    /// The least address that was never used. `init` may have used 1.
    fresh: u32,
    /// The addresses that were retired and not freed since.
    retired: Vec<u32>,
}

/// How many threads a run has: 2 in half of the runs, else mostly 3, at most 4.
fn drawn_threads(random: &mut Random) -> u32 {
    match random.below(8) {
        0 => 4,
        1 | 2 | 3 => 3,
        _ => 2,
    }
}

/// How many operations each thread may begin: one to so many.
fn drawn_shares(alloc: Global, random: &mut Random, most: u32) -> Result<Vec<u32>, NoMemory> {
    let mut left = Vec::new(alloc);
    for _ in 0..drawn_threads(random) {
        left.push(random.below(most) + 1)?;
    }
    Ok(left)
}

impl Plan {
    /// A plan that is drawn.
    pub fn draw(alloc: Global, random: &mut Random) -> Result<Plan, NoMemory> {
        let most = random.below(MOST_OPERATIONS) + 1;
        let left = drawn_shares(alloc, random, most)?;
        Ok(Plan {
            alloc,
            left,
            numbers: random.below(GREATEST_NUMBER + 1) + 1,
            freed: Vec::new(alloc),
            fresh: 2,
            retired: Vec::new(alloc),
        })
    }

    /// How many threads the run has.
    pub fn threads(&self) -> u32
        ensures { 0 < result }
    {
        self.left.len().clamp(1, 64) as u32
    }

    /// Whether a thread may begin an operation.
    pub fn may_begin(&self, t: u32) -> bool {
        self.left.get(t as usize).is_some_and(|left| *left > 0)
    }

    /// A thread has begun an operation.
    pub fn began(&mut self, t: u32) {
        if let Some(left) = self.left.get_mut(t as usize) {
            *left = left.saturating_sub(1);
        }
    }

    /// A number for an operation: mostly a small one, sometimes one of these or the one after it.
    fn number(&self, random: &mut Random, numbers: &[u32]) -> u32 {
        let k = random.below(numbers.len().min(4096) as u32);
        match numbers.get(k as usize) {
            Some(n) if random.one_in(3) => n.saturating_add(random.below(2)),
            _ => random.below(self.numbers),
        }
    }

    /// Numbers for an operation with so many parameters, where these stand in the program.
    pub fn arguments(
        &self,
        random: &mut Random,
        numbers: &[u32],
        count: usize,
    ) -> Result<Items<u32>, NoMemory> {
        let mut drawn = Items::new(self.alloc);
        for _ in 0..count {
            drawn.push(self.number(random, numbers))?;
        }
        Ok(drawn)
    }

    /// An address for `new`: mostly the one that was freed last, since a mistake often shows once an address is used
    /// again, else one that was never used.
    pub fn address(&self, random: &mut Random) -> u32 {
        match self.freed.last() {
            Some(a) if !random.one_in(8) => *a,
            _ => self.fresh.min(MOST_ADDRESSES),
        }
    }

    /// `new` has taken an address.
    pub fn used(&mut self, a: u32) {
        if self.freed.last() == Some(&a) {
            let _ = self.freed.pop();
        } else if a == self.fresh {
            self.fresh = self.fresh.saturating_add(1);
        }
    }

    /// An address was retired.
    pub fn retire(&mut self, a: u32) -> Result<(), NoMemory> {
        self.retired.push(a)?;
        Ok(())
    }

    /// An address was freed.
    pub fn free(&mut self, a: u32) -> Result<(), NoMemory> {
        self.retired.retain(|other| *other != a);
        self.freed.push(a)?;
        Ok(())
    }

    /// The addresses that were retired and not freed since.
    pub fn retired(&self) -> &[u32] {
        &self.retired
    }
}
