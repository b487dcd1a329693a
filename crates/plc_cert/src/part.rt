// Each part of a certificate reads a JSON value, or says that it isn't of its form. A trait has them
// all, so that one loop reads every list: of environments, of types, of trees and of nodes.
ghost use Rattle.std.specs.Prelude.{◌≡◌, IfOk};
ghost use Rattle.serde_json.specs.View.{view, items_view};
ghost use Rattle.plc_cert.specs.Shape.{each, list_of};

use plc_base::{Items, NoMemory};
use serde_json::Value;
use std::alloc::Global;

/// A part of a certificate.
pub(crate) trait Part: Sized {
    ghost use Rattle.std.specs.Prelude.{Option};
    ghost use Rattle.serde_json.specs.Data.{Data};

    /// Which part a value is.
    ghost shape: { Data → Option Self };

    /// The part that the value is, or `None`. The one error is that memory runs out.
    fn read(alloc: Global, value: &Value) -> Result<Option<Self>, NoMemory>
        ensures { IfOk result (λ part. part ≡ shape (view value.now)) };
}

/// The parts that the values are, or `None` where one of them is none.
fn each<T: Part + Drop>(alloc: Global, values: &[Value]) -> Result<Option<Items<T>>, NoMemory>
    ensures { IfOk result (λ parts. parts ≡ each T.shape (items_view values.now)) }
{
    let mut parts = Vec::with_capacity(alloc, values.len())?;
    for value in values {
        let Some(part) = T::read(alloc, value)? else {
            return Ok(None);
        };
        parts.push(part)?;
    }
    Ok(Some(Items::from_vec(parts)))
}

/// The parts of an array, or `None` where the value is no array of such parts.
pub(crate) fn list<T: Part + Drop>(
    alloc: Global,
    value: &Value,
) -> Result<Option<Items<T>>, NoMemory>
    ensures { IfOk result (λ parts. parts ≡ list_of T.shape (view value.now)) }
{
    let Some(values) = value.as_array() else {
        return Ok(None);
    };
    each(alloc, values.as_slice())
}
