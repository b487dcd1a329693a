// Declarations of one kind that follow one another. The loop is one for all kinds: each declaration has
// the number of those before it; the limit's place is the first token of the declaration past it.
ghost use Rattle.std.specs.Prelude.{◌+◌, ◌*◌, IfOk, map};
ghost use Rattle.plc_scope.specs.Answers.{Gives, HasRoom};
ghost use Rattle.plc_parse.specs.Growth.{AddsNames};
ghost use Rattle.plc_parse.specs.Meaning.{listed};

use plc_base::Items;
use plc_scope::{Resolved, Scope};
use std::alloc::Global;

/// A form that is declared among others of its kind.
pub trait Listed: Sized {
    ghost use Rattle.std.specs.Prelude.{◌<◌, ◌≤◌, IfOk};
    ghost use Rattle.plc_scope.specs.Answers.{Gives, HasRoom};
    ghost use Rattle.plc_parse.specs.Growth.{AddsNames};
    ghost use Rattle.plc_parse.specs.Kinds.{Kind};

    type Item: Drop;

    /// What all declarations of the kind share: their limit, names and meaning.
    ghost kind: { Kind Self Self.Item };

    /// Declares what has so many before it.
    fn declare(&self, alloc: Global, scope: &mut Scope, count: usize) -> Resolved<Self::Item>
        requires few { count ≤ kind.limit }
        requires room { HasRoom scope.old kind.names }
        ensures few { IfOk result (λ _. count < kind.limit) }
        ensures read { Gives (λ item. (item, scope.new)) result (kind.means scope.old count (kind.tree self.now)) }
        ensures declares { IfOk result (λ _. AddsNames scope.old scope.new kind.names) };
}

/// Declares forms of one kind.
pub fn declare_all<L: Listed>(
    alloc: Global,
    scope: &mut Scope,
    forms: &[L],
) -> Resolved<Items<L::Item>>
    requires { HasRoom scope.old (L.kind.names * (L.kind.limit + 1)) }
    ensures read { Gives (λ items. (items, scope.new)) result
        (listed L.kind.means scope.old 0 (map L.kind.tree forms.now)) }
    ensures declares { IfOk result (λ _. AddsNames scope.old scope.new (L.kind.names * L.kind.limit)) }
{
    let mut items = Items::new(alloc);
    for form in forms {
        let item = form.declare(alloc, scope, items.len())?;
        items.push(item)?;
    }
    Ok(items)
}
