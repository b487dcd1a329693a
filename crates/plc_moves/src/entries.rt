// Tables that both meanings of memory keep. Past its end a table reads as a default, so that reading is total and exact
// whatever is asked for.
ghost use Rattle.std.specs.Prelude.{◌≡◌, get_or, length, nat_lt, if◌then◌else◌, Some, None};

/// The entry at a place of a table, and the default past its end.
pub fn entry_or<T: Copy>(table: &[T], i: usize, default: T) -> T
    ensures { result ≡ get_or table.now i default }
{
    if i < table.len() { table[i] } else { default }
}

/// The entry at a place of a table, if there is such a place.
pub fn find_entry<T: Copy>(table: &[T], i: usize) -> Option<T>
    ensures { (d : T) → result ≡ (if nat_lt i (length table.now) then Some (get_or table.now i d) else None) }
{
    if i < table.len() {
        Some(table[i])
    } else {
        None
    }
}
