// Which thread moves next: always the first in an order that can. In one third of the runs the order changes at a few
// moves that are drawn beforehand, so that a bug which needs few changes is met with a known chance (Burckhardt and
// others, ASPLOS 2010); in another it changes after any move, with a chance that is drawn for the run; in the last one
// before a thread writes, when what it has read may grow stale. Moves that no other thread can see aren't counted.
use crate::random::Random;
use plc_base::NoMemory;
use std::alloc::Global;

/// When the thread that moved gives way to some of those after it.
#[derive(Drop)]
enum Pace {
    /// After these moves of the run.
    At(Vec<u32>),
    /// After each move, with one chance in so many.
    Chance(u32),
    /// Before it writes, with one chance in so many.
    BeforeWrites(u32),
}

/// The threads of a run, the first one first.
#[derive(Drop)]
pub struct Order {
    threads: Vec<u32>,
    pace: Pace,
    moved: u32,
}

/// One chance in so many that a thread gives way whatever the pace, so that none spins to the end of a run.
const PATIENCE: u32 = 48;

/// So many threads, in an order that is drawn.
fn drawn_order(alloc: Global, random: &mut Random, threads: u32) -> Result<Vec<u32>, NoMemory> {
    let mut order = Vec::new(alloc);
    for t in 0..threads {
        let at = random.below(t.saturating_add(1)) as usize;
        order.insert(at.min(order.len()), t)?;
    }
    Ok(order)
}

/// One to five moves at which the order changes, among the first of a run.
fn drawn_points(alloc: Global, random: &mut Random) -> Result<Vec<u32>, NoMemory> {
    let length = 16 << random.below(4);
    let mut points = Vec::new(alloc);
    for _ in 0..random.below(5) + 1 {
        points.push(random.below(length).saturating_add(1))?;
    }
    Ok(points)
}

impl Order {
    /// An order of so many threads, and when it changes, drawn.
    pub fn draw(alloc: Global, random: &mut Random, threads: u32) -> Result<Order, NoMemory> {
        let threads = drawn_order(alloc, random, threads)?;
        let pace = match random.below(3) {
            0 => Pace::At(drawn_points(alloc, random)?),
            1 => Pace::Chance(2 << random.below(4)),
            _ => Pace::BeforeWrites(2 << random.below(3)),
        };
        Ok(Order {
            threads,
            pace,
            moved: 0,
        })
    }

    /// How many threads there are.
    pub fn len(&self) -> usize {
        self.threads.len()
    }

    /// The thread at a place of the order.
    pub fn at(&self, k: usize) -> u32 {
        self.threads.get(k).copied().unwrap_or(0)
    }

    /// Whether the thread that made the last move gives way.
    fn gives_way(&self, random: &mut Random) -> bool {
        let now = match &self.pace {
            Pace::At(points) => points.contains(&self.moved),
            Pace::Chance(chance) => random.one_in(*chance),
            Pace::BeforeWrites(_) => false,
        };
        now || random.one_in(PATIENCE)
    }

    /// Whether a thread that is about to write gives way first.
    pub fn waits(&self, random: &mut Random) -> bool {
        match &self.pace {
            Pace::BeforeWrites(chance) => random.one_in(*chance),
            Pace::At(_) | Pace::Chance(_) => false,
        }
    }

    /// The thread at a place of the order goes to a place after the next one.
    pub fn give_way(&mut self, k: usize, random: &mut Random) -> Result<(), NoMemory> {
        if k < self.threads.len() {
            let t = self.threads.remove(k);
            let later = self.threads.len().saturating_sub(k).min(64) as u32;
            let at = k
                .saturating_add(random.below(later) as usize)
                .saturating_add(1);
            self.threads.insert(at.min(self.threads.len()), t)?;
        }
        Ok(())
    }

    /// The thread at a place of the order has made a move that no other sees. It gives way after many of them.
    pub fn passed(&mut self, k: usize, random: &mut Random) -> Result<(), NoMemory> {
        if random.one_in(PATIENCE) {
            self.give_way(k, random)?;
        }
        Ok(())
    }

    /// The thread at a place of the order has made a move that others may see.
    pub fn moved(&mut self, k: usize, random: &mut Random) -> Result<(), NoMemory> {
        self.moved = self.moved.saturating_add(1);
        if self.gives_way(random) {
            self.give_way(k, random)?;
        }
        Ok(())
    }
}
