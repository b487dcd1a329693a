// Whole numbers and pairs, of which all else is made. A number is whole where JSON writes it without
// a fraction, an exponent or a sign: `1.0` is none.
ghost use Rattle.std.specs.Prelude.{◌≡◌, ◌<◌, option_map, IfSome};
ghost use Rattle.serde_json.specs.View.{view};
ghost use Rattle.plc_cert.specs.Shape.{whole_below, index_of, pair_of};

use serde_json::Value;

/// A whole number below the bound.
pub(crate) fn whole_below(value: &Value, bound: u64) -> Option<u64>
    ensures value { result ≡ whole_below bound (view value.now) }
    ensures below { IfSome result (λ n. n < bound) }
{
    match value.as_u64() {
        Some(n) => if n < bound { Some(n) } else { None },
        None => None,
    }
}

/// A number that names a clause or a term.
pub(crate) fn index(value: &Value) -> Option<u32>
    ensures { result ≡ index_of (view value.now) }
{
    match value.as_u64() {
        Some(n) => if n < 1 << 32 { Some(n as u32) } else { None },
        None => None,
    }
}

/// The two items of an array.
pub(crate) fn pair(value: &Value) -> Option<(&Value, &Value)>
    ensures { option_map (λ p. (view p.0.now, view p.1.now)) result ≡ pair_of (view value.now) }
{
    let items = value.as_array()?;
    if items.len() != 2 {
        return None;
    }
    Some((&items[0], &items[1]))
}
