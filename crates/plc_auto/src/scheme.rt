// By which calls the threads of a file say what they use: what a reclaimer is given before a run.
ghost use Rattle.std.specs.Prelude.{◌≡◌, IfOk};
ghost use Rattle.plc_auto.specs.Schemes.{schemes_of};

use crate::observer::Observer;
use plc_base::{FuncId, Items, NoMemory};
use std::alloc::Global;

/// A scheme by which a file's threads say what they still use.
#[derive(Clone, Copy)]
pub enum Scheme {
    /// Hazard pointers: a thread protects the address with which it calls this function.
    Hazard { f: FuncId },
    /// Epochs: a thread is inside between the return of `enter` and the call of `leave`.
    Epoch { enter: FuncId, leave: FuncId },
}

/// The schemes of a file with this observer: one where it uses hazard pointers or epochs, else none.
pub fn schemes_of(alloc: Global, observer: &Observer) -> Result<Items<Scheme>, NoMemory>
    ensures { IfOk result (λ schemes. schemes ≡ schemes_of observer.now) }
{
    let mut schemes = Vec::new(alloc);
    match *observer {
        Observer::Plain => {}
        Observer::Hazard(f) => schemes.push(Scheme::Hazard { f })?,
        Observer::Epoch(enter, leave) => schemes.push(Scheme::Epoch { enter, leave })?,
    }
    Ok(Items::from_vec(schemes))
}
