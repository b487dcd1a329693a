// A sink whose room is there from the first, so that no write to it asks for memory: what it answers goes by
// the room that is left alone.
ghost use Rattle.std.specs.Prelude.{◌≡◌, [], IfOk, length};
ghost use Rattle.plc_outside.specs.Outside.{Puts};
ghost use Rattle.plc_outside.specs.FixedBytes.{known_of, AnswersFixedPut, IsAfterFixedPut};

use crate::sinks::{Sink, SinkFault};
use plc_base::NoMemory;
use std::alloc::Global;
use std::marker::Model;

/// A sink that takes so many bytes and no more. Where it is full it counts a fault and fails, and only
/// there.
#[derive(Drop)]
pub struct FixedSink {
    // the whole room, of which the first bytes were written
    bytes: Vec<u8>,
    count: usize,
    faults: u64,
}

impl Model for FixedSink {
    ghost use Rattle.std.specs.Prelude.{◌≤◌, length, take};
    ghost use Rattle.plc_outside.specs.FixedBytes.{FixedBytes};

    ghost Value = { FixedBytes };

    ghost view = { λ s. record {
      room = length s.bytes.items;
      written = take s.count s.bytes.items;
      faults = s.faults;
    } };

    ghost invariant = { λ s. s.count ≤ length s.bytes.items };
}

impl FixedSink {
    /// Room for so many bytes, of which none is written yet; the one error is that memory runs out.
    pub fn new(alloc: Global, room: usize) -> Result<FixedSink, NoMemory>
        ensures { IfOk result (λ sink. sink ≡ record { room = room; written = []; faults = 0 }) }
    {
        Ok(FixedSink {
            bytes: vec![in alloc; 0; room]?,
            count: 0,
            faults: 0,
        })
    }

    /// What was written.
    pub fn written(&self) -> &[u8]
        ensures { result.now ≡ self.now.written }
    {
        &self.bytes[..self.count]
    }
}

impl Sink for FixedSink {
    ghost known = { known_of };

    /// Beside what each sink promises, every answer and the sink after it.
    fn put(&mut self, piece: &[u8]) -> Result<usize, SinkFault>
        ensures answer { AnswersFixedPut self.old (length piece.now) result }
        ensures after { IsAfterFixedPut self.old self.new piece.now result }
        ensures puts { Puts (known_of self.old) (known_of self.new) piece.now result }
    {
        let left = self.bytes.len() - self.count;
        if left == 0 && !piece.is_empty() {
            self.faults = self.faults.saturating_add(1);
            return Err(SinkFault::Failed);
        }
        let taken = piece.len().min(left);
        self.bytes[self.count..self.count + taken].copy_from_slice(&piece[..taken]);
        self.count += taken;
        Ok(taken)
    }
}
