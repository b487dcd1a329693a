// Reading, over the JSON value of the whole text. Refusals come in one order: what isn't JSON at all,
// the members of the object, the version, and only then the two lists, since another version may
// have another form.
ghost use Rattle.std.specs.Prelude.{◌≡◌, ◌&&◌, bytes_eq, codes, option_map};
ghost use Rattle.serde_json.specs.View.{view, members_view};
ghost use Rattle.plc_cert.specs.Shape.{whole_of, with_version, root_from, root_of, certificate_of, reading, Answers};

use crate::cert::{Cert, CertFault, CertField};
use crate::part::list;
use serde_json::Value;
use std::alloc::Global;
use std::collections::btree_map::Iter;

/// Whether three names are those of the members.
fn are_named(first: &str, second: &str, third: &str) -> bool
    ensures { result ≡ (bytes_eq first.now (codes "env")
        && (bytes_eq second.now (codes "trees") && bytes_eq third.now (codes "version"))) }
{
    first == "env" && second == "trees" && third == "version"
}

/// The values at `env`, `trees` and `version`, where these are the members that are left.
fn values<'a>(members: &mut Iter<'a, String, Value>) -> Option<(&'a Value, &'a Value, &'a Value)>
    ensures { option_map (λ r. (view r.0.now, view r.1.now, view r.2.now)) result
        ≡ root_from (members_view members.old) }
{
    match (
        members.next(),
        members.next(),
        members.next(),
        members.next(),
    ) {
        (Some((first, env)), Some((second, trees)), Some((third, version)), None)
            if are_named(first.as_str(), second.as_str(), third.as_str()) => {
            Some((env, trees, version))
        }
        _ => None,
    }
}

/// The values at `env`, `trees` and `version`, where these are the members. An object has its members
/// in the order of their names, however the text has them.
fn root(value: &Value) -> Option<(&Value, &Value, &Value)>
    ensures { option_map (λ r. (view r.0.now, view r.1.now, view r.2.now)) result
        ≡ root_of (view value.now) }
{
    values(&mut value.as_object()?.iter())
}

/// The version, where it is 1 or 2.
fn version(value: &Value) -> Result<u8, CertFault>
    ensures { result ≡ with_version (whole_of (view value.now)) (λ n. Ok n) }
{
    match value.as_u64() {
        None => Err(CertFault::Shape {
            field: CertField::Version,
        }),
        Some(n) => if n == 1 || n == 2 {
            Ok(n as u8)
        } else {
            Err(CertFault::Version { n })
        },
    }
}

/// The certificate that a JSON value is.
fn certificate(alloc: Global, value: &Value) -> Result<Cert, CertFault>
    ensures { Answers result (certificate_of (view value.now)) }
{
    let Some((env, trees, number)) = root(value) else {
        return Err(CertFault::Shape {
            field: CertField::Root,
        });
    };
    let version = version(number)?;
    let Some(env) = list(alloc, env)? else {
        return Err(CertFault::Shape {
            field: CertField::Env,
        });
    };
    let Some(trees) = list(alloc, trees)? else {
        return Err(CertFault::Shape {
            field: CertField::Trees,
        });
    };
    Ok(Cert {
        version,
        env,
        trees,
    })
}

/// The certificate that the bytes are: JSON as `serde_json` reads it, white space and the order of
/// members as the writer likes. Its environments have no types of shared pointers.
///
/// Of several refusals the first in this order is the answer: `NotJson`; `Shape` with `Root`; `Shape`
/// with `Version`; `Version` with the number; `Shape` with `Env`; `Shape` with `Trees`. `Memory`
/// may come in place of any answer.
pub fn read(alloc: Global, bytes: &[u8]) -> Result<Cert, CertFault>
    ensures { Answers result (reading bytes.now) }
{
    match Value::from_slice(alloc, bytes) {
        Ok(value) => certificate(alloc, &value),
        Err(error) => if error.is_memory() {
            Err(CertFault::Memory)
        } else {
            Err(CertFault::NotJson)
        },
    }
}
