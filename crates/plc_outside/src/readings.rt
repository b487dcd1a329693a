// The reads that gave bytes, for proofs alone. A snapshot has no bytes of its own, so nothing of a file
// is kept while the program runs; what is made for it, the name beside the bytes, is dropped at once.
ghost use Rattle.std.specs.Prelude.{◌≡◌, [], IfOk, IfErr};
ghost use Rattle.plc_outside.specs.Outside.{NotesReading};
ghost use Rattle.plc_outside.specs.declared.files.FileFault.TheVariants.{Memory};

use crate::files::FileFault;
use plc_base::Items;
use std::alloc::Global;
use std::marker::Model;
use std::snapshot::Snapshot;

/// A name with the bytes that a read of it gave.
#[derive(Drop)]
struct Named {
    name: String,
    bytes: Vec<u8>,
}

/// The reads that gave bytes, in order.
#[derive(Drop)]
pub(crate) struct Readings {
    alloc: Global,
    reads: Items<Snapshot<Named>>,
}

impl Model for Readings {
    ghost use Rattle.std.specs.Prelude.{List, map, string_bytes};
    ghost use Rattle.plc_outside.specs.Reading.{Reading};

    ghost Value = { List Reading };

    ghost view = { λ s. map (λ r. record {
      name = string_bytes r.value.name;
      bytes = r.value.bytes.items;
    }) s.reads };
}

impl Readings {
    /// No reads. It takes no memory.
    pub(crate) fn new(alloc: Global) -> Readings
        ensures { result ≡ [] }
    {
        Readings {
            alloc,
            reads: Items::new(alloc),
        }
    }

    /// Notes a read that gave these bytes, and hands them on. Where memory runs out nothing is noted.
    pub(crate) fn note(&mut self, name: &str, bytes: Vec<u8>) -> Result<Vec<u8>, FileFault>
        ensures ok { IfOk result (λ v. v ≡ bytes) }
        ensures err { IfErr result (λ fault. fault ≡ Memory) }
        ensures noted { NotesReading self.old self.new name.now result }
    {
        let read = Named {
            name: String::from_str(self.alloc, name)?,
            bytes,
        };
        self.reads.push(Snapshot::of(&read))?;
        Ok(read.bytes)
    }
}
