// Where terms were found last, by their keys: a table of one probe before the table of hashes. A slot keeps the
// last place of any term whose key leads to it, so what it says is a guess: whoever asks compares the term that
// stands there, and nothing rests on what is kept.
use plc_base::NoMemory;
use std::alloc::Global;

const SLOTS: usize = 1024;

/// A place for each slot, or no slots as long as nothing was kept.
#[derive(Drop)]
pub struct Recent {
    places: Vec<u32>,
}

/// The slot of a key. Multiplying by a large odd number lets every bit of the key change the upper bits of the
/// product, and the upper ten, which are kept, number the 1,024 slots.
fn slot(key: u64) -> usize {
    (key.wrapping_mul(0x9E37_79B9_7F4A_7C15) >> 54) as usize
}

impl Recent {
    /// Nothing is kept. It takes no memory.
    pub fn new(alloc: Global) -> Recent {
        Recent {
            places: Vec::new(alloc),
        }
    }

    /// The last place that was kept in the slot of this key.
    pub fn get(&self, key: u64) -> Option<u32> {
        self.places.get(slot(key)).copied()
    }

    /// Keeps a place. The first takes the memory of all slots.
    pub fn keep(&mut self, key: u64, place: u32) -> Result<(), NoMemory> {
        if self.places.is_empty() {
            self.places.resize(SLOTS, 0)?;
        }
        if let Some(kept) = self.places.get_mut(slot(key)) {
            *kept = place;
        }
        Ok(())
    }
}
