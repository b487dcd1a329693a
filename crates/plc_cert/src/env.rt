// Environments as JSON values: `[[W],[[G,[M]],..]]`. A set of locations is its ascending list, so
// that each set has one spelling; a set of guarantees is the number of its bits.
ghost use Rattle.std.specs.Prelude.{◌≡◌};
ghost use Rattle.serde_json.specs.View.{view};
ghost use Rattle.plc_cert.specs.Shape.{mask_of, guarantee_of, pointer_of, env_of};

use crate::number::{pair, whole_below};
use crate::part::{Part, list};
use plc_base::{Items, LocId, Mask, NoMemory};
use plc_type::{Env, Guar, PtrType};
use serde_json::Value;
use std::alloc::Global;

/// A set of locations. Each stands above the one before it, from `least` on.
fn mask(value: &Value) -> Option<Mask>
    ensures { result ≡ mask_of (view value.now) }
{
    let mut members = Mask::empty();
    let mut least = 0;
    for location in value.as_array()? {
        let l = whole_below(location, 8)?;
        if l < least {
            return None;
        }
        members.insert(LocId(l as u16));
        least = l + 1;
    }
    Some(members)
}

/// One of the four sets of guarantees.
fn guarantee(value: &Value) -> Option<Guar>
    ensures { result ≡ guarantee_of (view value.now) }
{
    match value.as_u64()? {
        0 => Some(Guar::nothing()),
        1 => Some(Guar::safe_only()),
        3 => Some(Guar::active_safe()),
        7 => Some(Guar::active_local_safe()),
        _ => None,
    }
}

/// The type of a pointer local.
fn pointer(value: &Value) -> Option<PtrType>
    ensures { result ≡ pointer_of (view value.now) }
{
    let (g, m) = pair(value)?;
    Some(PtrType {
        g: guarantee(g)?,
        m: mask(m)?,
    })
}

impl Part for PtrType {
    ghost shape = { pointer_of };

    fn read(_alloc: Global, value: &Value) -> Result<Option<PtrType>, NoMemory> {
        Ok(pointer(value))
    }
}

impl Part for Env {
    ghost shape = { env_of };

    fn read(alloc: Global, value: &Value) -> Result<Option<Env>, NoMemory> {
        let Some((w, locals)) = pair(value) else {
            return Ok(None);
        };
        let Some(w) = mask(w) else {
            return Ok(None);
        };
        match list(alloc, locals)? {
            Some(locals) => Ok(Some(Env {
                shared: Items::new(alloc),
                locals,
                w,
            })),
            None => Ok(None),
        }
    }
}
