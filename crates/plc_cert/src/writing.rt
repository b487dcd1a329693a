// Writing. Each part sends the events of its JSON value to the serializer, so that no value is built
// and a certificate of any length takes the memory of its text alone.
ghost use Rattle.std.specs.Prelude.{◌≡◌, ◌≤◌, length, take, OnOk, IfOk};
ghost use Rattle.plc_cert.specs.Written.{whole, list, members, text};
ghost use Rattle.serde_json.specs.Events.{SendsValue};

use crate::cert::Cert;
use bitflags::Flags;
use plc_base::{LocId, Mask, NoMemory};
use plc_ground::{Node, Tree};
use plc_type::{Env, PtrType};
use serde::{Described, Serialize, Serializer};
use std::alloc::Global;

/// A part of a certificate, as it is written.
trait Sent {
    ghost use Rattle.serde_json.specs.Data.{Data};

    /// The JSON value that a part is.
    ghost json: { Self → Data };

    /// Sends the events of that value.
    fn send<S: Serializer>(&self, out: &mut S) -> Result<(), S::Error>
        ensures { OnOk result (SendsValue (json self.now) (S.written out.old) (S.written out.new)) };
}

/// An array of the items.
fn send_list<T: Sent, S: Serializer>(items: &[T], out: &mut S) -> Result<(), S::Error>
    ensures { OnOk result (SendsValue (list T.json items.now) (S.written out.old) (S.written out.new)) }
{
    out.begin_seq(Some(items.len()))?;
    for item in items {
        item.send(out)?;
    }
    out.end_seq()
}

impl Sent for u16 {
    ghost json = { whole };

    fn send<S: Serializer>(&self, out: &mut S) -> Result<(), S::Error> {
        out.u64(*self as u64)
    }
}

impl Sent for Node {
    ghost use Rattle.plc_cert.specs.Written.{node};

    ghost json = { node };

    fn send<S: Serializer>(&self, out: &mut S) -> Result<(), S::Error> {
        match *self {
            Node::Split(clause) => {
                out.begin_seq(Some(2))?;
                out.u64(0)?;
                out.u64(clause as u64)?;
                out.end_seq()
            }
            Node::Leaf(left, right) => {
                out.begin_seq(Some(3))?;
                out.u64(1)?;
                out.u64(left as u64)?;
                out.u64(right as u64)?;
                out.end_seq()
            }
        }
    }
}

impl Sent for Tree {
    ghost use Rattle.plc_cert.specs.Written.{tree};

    ghost json = { tree };

    fn send<S: Serializer>(&self, out: &mut S) -> Result<(), S::Error> {
        send_list(self.nodes.as_slice(), out)
    }
}

/// The locations in a set, ascending, and how many there are.
fn locations_in(mask: &Mask) -> ([u16; 8], usize)
    ensures value { take result.1 result.0 ≡ members mask.now }
    ensures count { result.1 ≤ length result.0 }
{
    let mut locations = [0; 8];
    let mut count = 0;
    for l in 0..8u16 {
        if mask.has(LocId(l)) {
            locations[count] = l;
            count += 1;
        }
    }
    (locations, count)
}

impl Sent for Mask {
    ghost use Rattle.plc_cert.specs.Written.{mask};

    ghost json = { mask };

    fn send<S: Serializer>(&self, out: &mut S) -> Result<(), S::Error> {
        let (locations, count) = locations_in(self);
        send_list(&locations[..count], out)
    }
}

impl Sent for PtrType {
    ghost use Rattle.plc_cert.specs.Written.{pointer};

    ghost json = { pointer };

    fn send<S: Serializer>(&self, out: &mut S) -> Result<(), S::Error> {
        out.begin_seq(Some(2))?;
        out.u64(self.g.bits() as u64)?;
        self.m.send(out)?;
        out.end_seq()
    }
}

impl Sent for Env {
    ghost use Rattle.plc_cert.specs.Written.{env};

    ghost json = { env };

    fn send<S: Serializer>(&self, out: &mut S) -> Result<(), S::Error> {
        out.begin_seq(Some(2))?;
        self.w.send(out)?;
        send_list(self.locals.as_slice(), out)?;
        out.end_seq()
    }
}

impl Described for Cert {
    ghost use Rattle.plc_cert.specs.Written.{cert};

    ghost writes = { λ c. SendsValue (cert c) };
}

impl Serialize for Cert {
    fn serialize<S: Serializer>(&self, out: &mut S) -> Result<(), S::Error> {
        out.begin_map(Some(3))?;
        out.key("env")?;
        send_list(self.env.as_slice(), out)?;
        out.key("trees")?;
        send_list(self.trees.as_slice(), out)?;
        out.key("version")?;
        out.u64(self.version as u64)?;
        out.end_map()
    }
}

/// The text of a certificate, of any length: compact JSON without a line feed,
/// `{"env":[..],"trees":[..],"version":N}`, N the certificate's own. The types of shared pointers are
/// left out. The one error is that memory runs out.
pub fn write(alloc: Global, cert: &Cert) -> Result<Vec<u8>, NoMemory>
    ensures { IfOk result (λ bytes. bytes.items ≡ text cert.now) }
{
    match serde_json::to_vec(alloc, cert) {
        Ok(bytes) => Ok(bytes),
        Err(_) => Err(NoMemory),
    }
}
