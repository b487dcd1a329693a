// Whether two tests answer alike: a word of many definitions, as of marks and of alike obligations.
ghost use Rattle.std.specs.Prelude.{◌≡◌};
ghost use Rattle.plc_base.specs.Booleans.{same_bool};

/// Whether both are so, or neither is.
pub fn same_bool(a: bool, b: bool) -> bool
    ensures { result ≡ same_bool a b }
{
    if a { b } else { !b }
}
