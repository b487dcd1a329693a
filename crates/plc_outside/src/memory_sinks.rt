// Sinks that keep what is written in memory. `VecSink` takes every piece whole. `FailSink` takes a
// few bytes a call and fails at given calls, so a caller's loop and its handling of a fault can be
// tried at each turn.
ghost use Rattle.std.specs.Prelude.{◌≡◌, ◌++◌, ◌==◌, ◌&&◌, ◌||◌, not, [], IfOk, IfErr, length};
ghost use Rattle.plc_outside.specs.Counts.{is_failing};
ghost use Rattle.plc_outside.specs.Outside.{Puts};
ghost use Rattle.plc_outside.specs.StoredBytes.{known_bytes, known_of, AnswersPut, IsAfterPut};

use crate::sinks::{Sink, SinkFault};
use std::alloc::Global;
use std::marker::Model;

/// A sink that grows. It is seen as the bytes that were written.
#[derive(Drop)]
pub struct VecSink {
    bytes: Vec<u8>,
}

impl Model for VecSink {
    ghost use Rattle.std.specs.Prelude.{ℕ, List};

    ghost Value = { List ℕ };

    ghost view = { λ s. s.bytes.items };
}

impl VecSink {
    /// Nothing is written yet. It takes no memory.
    pub fn new(alloc: Global) -> VecSink
        ensures { result ≡ [] }
    {
        VecSink {
            bytes: Vec::new(alloc),
        }
    }

    /// What was written.
    pub fn written(&self) -> &[u8]
        ensures { result.now ≡ self.now }
    {
        &self.bytes
    }
}

impl Sink for VecSink {
    ghost known = { known_bytes };

    fn put(&mut self, piece: &[u8]) -> Result<usize, SinkFault>
        ensures puts { Puts (known_bytes self.old) (known_bytes self.new) piece.now result }

        // It takes the whole piece, and only running out of memory stops it.
        ensures whole { IfOk result (λ n. (n ≡ length piece.now) × (self.new ≡ self.old ++ piece.now)) }
        ensures memory { IfErr result (λ fault. (fault ≡ SinkFault.Memory) × (self.new ≡ self.old)) }
    {
        self.bytes.extend_from_slice(piece)?;
        Ok(piece.len())
    }
}

/// A sink that takes at most `most` bytes a call, and fails at given calls. A call that fails raises
/// the count of faults and writes nothing.
#[derive(Drop)]
pub struct FailSink {
    most: usize,
    failing: Vec<u64>,
    bytes: Vec<u8>,
    calls: u64,
    faults: u64,
}

impl Model for FailSink {
    ghost use Rattle.plc_outside.specs.StoredBytes.{StoredBytes};

    ghost Value = { StoredBytes };

    ghost view = { λ s. record {
      most = s.most;
      failing = s.failing.items;
      calls = s.calls;
      written = s.bytes.items;
      faults = s.faults;
    } };
}

impl FailSink {
    /// Nothing is written yet. The calls of `put` are counted from 1, and those in `failing` fail;
    /// where `most` is 0, so does each call with a piece that has bytes. It takes no memory.
    pub fn new(alloc: Global, most: usize, failing: Vec<u64>) -> FailSink
        ensures { result ≡ record {
          most = most;
          failing = failing.items;
          calls = 0;
          written = [];
          faults = 0;
        } }
    {
        FailSink {
            most,
            failing,
            bytes: Vec::new(alloc),
            calls: 0,
            faults: 0,
        }
    }

    /// What was written.
    pub fn written(&self) -> &[u8]
        ensures { result.now ≡ self.now.written }
    {
        &self.bytes
    }
}

/// Whether a call fails: it is to fail, or it would take nothing of a piece with bytes.
fn fails(failing: &[u64], call: u64, most: usize, size: usize) -> bool
    ensures { result ≡ (is_failing failing.now call || (most == 0 && not (size == 0))) }
{
    failing.contains(&call) || (most == 0 && size != 0)
}

impl Sink for FailSink {
    ghost known = { known_of };

    fn put(&mut self, piece: &[u8]) -> Result<usize, SinkFault>
        ensures puts { Puts (known_of self.old) (known_of self.new) piece.now result }

        // Each answer, and the sink after it.
        ensures answer { AnswersPut self.old (length piece.now) result }
        ensures after { IsAfterPut self.old self.new piece.now result }
    {
        self.calls = self.calls.saturating_add(1);
        if fails(&self.failing, self.calls, self.most, piece.len()) {
            self.faults = self.faults.saturating_add(1);
            return Err(SinkFault::Failed);
        }
        let count = piece.len().min(self.most);
        self.bytes.extend_from_slice(&piece[..count])?;
        Ok(count)
    }
}
