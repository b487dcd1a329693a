// What a file's tree means: the declarations before the operations, the operations, and the outline. Each part
// has a function of its own, so that few values live where one may fail; those that live are dropped by name.
ghost use Rattle.std.specs.Prelude.{◌≡◌, ◌≤◌, ◌+◌, ◌-◌, ◌*◌, ◌∷◌, Ok, [], length, IfOk};
ghost use Rattle.plc_base.specs.Limits.{most, most_names};
ghost use Rattle.plc_base.specs.declared.limits.What1.TheVariants as limits;
ghost use Rattle.plc_syntax.specs.Views.{watched_tree};
ghost use Rattle.plc_outparse.specs.Answers.{OpsFit};
ghost use Rattle.plc_scope.specs.Answers.{Gives, HasRoom};
ghost use Rattle.plc_scope.specs.Scope.{most_locals};
ghost use Rattle.plc_tree.specs.FileViews.{heading_tree, file_tree};
ghost use Rattle.plc_tree.specs.FormViews.{starts_tree, outlined_tree};
ghost use Rattle.plc_parse.specs.Growth.{AddsNames, op_names, most_labels, ghost_names, front_names};
ghost use Rattle.plc_parse.specs.Meaning.{retire, watch_means, init_means, outlined_means, file_means};
ghost use Rattle.plc_parse.specs.Parts.{declared_mean, front_means, body_means, parts_mean, unit_from};
ghost use Rattle.plc_parse.specs.Units.{lines_of};
ghost use Rattle.plc_parse.specs.Views.{front_of};

use crate::declaration::declare;
use crate::lists::declare_all;
use crate::operation::operations;
use crate::step::step_of;
use crate::unit::Unit;
use plc_auto::Observer;
use plc_base::Items;
use plc_lang::{Field, File, Func, Ghost, Op, Prim};
use plc_lex::Token;
use plc_logic::Outline;
use plc_outparse::outline_meaning;
use plc_scope::{Binding, Resolved, Scope};
use plc_syntax::{Initial, Placed, Watch, in_turn};
use plc_tree::{File as FileForm, Heading, Outline as OutlineForm};
use std::alloc::Global;

/// `retire`, which is the first function of each file and takes a pointer.
const RETIRE: Func = Func {
    name: 0,
    pointer: true,
};

/// The fields of the struct, the names of the shared pointers, and the functions without `retire`.
type Declared = (Items<Field>, Items<u16>, Items<Func>);

/// The declarations of a file before those of auxiliary fields.
#[tactic(auto, unfolding(crate::specs::Parts::declared_mean))]
fn declarations(alloc: Global, scope: &mut Scope, form: &Heading) -> Resolved<Declared>
    requires { HasRoom scope.old (most limits.Fields + most limits.Shared + most limits.Calls + 1) }
    ensures read { Gives (λ declared. (declared, scope.new)) result
        (declared_mean scope.old (heading_tree form.now)) }
    ensures declares { IfOk result (λ _. AddsNames scope.old scope.new
        (most limits.Fields + most limits.Shared + most limits.Calls)) }
{
    in_turn!(
        fields = declare_all(alloc, scope, form.node.fields.as_slice());
        shared = declare_all(alloc, scope, form.pointers.as_slice()), dropping fields;
        functions = declare_all(alloc, scope, form.functions.as_slice()), dropping fields, shared;
        Ok((fields, shared, functions))
    )
}

/// What a file says that is watched: plain where it says nothing.
fn observer(scope: &Scope, watch: Option<Watch>) -> Resolved<Observer>
    requires { length scope.now.locals ≤ most_locals }
    ensures { Gives (λ o. o) result (watch_means scope.now (watched_tree watch.entry)) }
{
    match watch {
        None => Ok(Observer::Plain),
        Some(Watch::Hazard(name)) => Ok(Observer::Hazard(scope.protecting_at(name)?)),
        Some(Watch::Epoch(enter, leave)) => {
            let enter = scope.without_pointer_at(enter)?;
            let leave = scope.without_pointer_at(leave)?;
            Ok(Observer::Epoch(enter, leave))
        }
    }
}

/// The primitives of `init`, which may be left out.
fn init_primitives(
    alloc: Global,
    scope: &Scope,
    form: &Option<Items<Placed<Initial>>>,
) -> Resolved<Items<Prim>>
    requires { length scope.now.locals ≤ most_locals }
    ensures { Gives (λ primitives. primitives) result (init_means scope.now (starts_tree form.now)) }
{
    match form {
        Some(forms) => step_of(alloc, scope, forms.as_slice()),
        None => Ok(Items::new(alloc)),
    }
}

/// The functions of a file: `retire`, and then those that it declares.
fn with_retire(functions: Items<Func>) -> Resolved<Items<Func>>
    ensures { Gives (λ all. all) result (Ok (retire ∷ functions)) }
{
    let mut all = functions.into_vec();
    all.insert(0, RETIRE)?;
    Ok(Items::from_vec(all))
}

/// The outline, which is empty where the file has none.
fn outline_or_empty(
    alloc: Global,
    scope: &Scope,
    ops: &[Op],
    form: &Option<OutlineForm>,
) -> Resolved<Outline>
    requires labels { length scope.now.labels ≤ most_labels }
    requires ops { OpsFit ops.now }
    ensures { Gives (λ outline. outline) result (outlined_means scope.now ops.now (outlined_tree form.now)) }
{
    match form {
        None => Ok(Outline {
            depth: 0,
            invariants: Items::new(alloc),
            items: Items::new(alloc),
        }),
        Some(form) => outline_meaning(alloc, scope, ops, form),
    }
}

/// What stands before the operations.
#[derive(Drop)]
struct Front {
    /// The fields, the shared pointers and the functions.
    declared: Declared,
    /// What is watched.
    observer: Observer,
    /// The auxiliary fields.
    ghosts: Items<Ghost>,
    /// The primitives of `init`.
    init: Items<Prim>,
}

/// What stands before the operations, after the struct's name.
#[tactic(auto, unfolding(crate::specs::Parts::front_means))]
fn before_operations(alloc: Global, scope: &mut Scope, form: &Heading) -> Resolved<Front>
    requires room { HasRoom scope.old (front_names + ghost_names) }
    requires locals { scope.old.locals ≡ [] }
    ensures read { Gives (λ front. (front_of front, scope.new)) result
        (front_means scope.old (heading_tree form.now)) }
    ensures declares { IfOk result (λ _. AddsNames scope.old scope.new front_names) }
{
    in_turn!(
        declared = declarations(alloc, scope, form);
        observer = observer(scope, form.watched), dropping declared;
        ghosts = declare_all(alloc, scope, form.auxiliaries.as_slice()), dropping declared;
        init = init_primitives(alloc, scope, &form.starts), dropping declared, ghosts;
        Ok(Front { declared, observer, ghosts, init })
    )
}

/// The operations and the outline.
#[tactic(auto, unfolding(crate::specs::Parts::body_means))]
fn operations_and_outline(
    alloc: Global,
    scope: &mut Scope,
    tokens: &[Token],
    form: &FileForm,
) -> Resolved<(Items<Op>, Outline)>
    requires room { HasRoom scope.old (op_names * (most limits.Ops + 1) + most_labels + 1) }
    requires locals { scope.old.locals ≡ [] }
    requires labels { scope.old.labels ≡ [] }
    ensures { Gives (λ r. (r.0, r.1, scope.new)) result
        (body_means (lines_of tokens.now) scope.old (file_tree form.now)) }
{
    let ops = operations(alloc, scope, tokens, form.operations.as_slice())?;
    in_turn!(
        outline = outline_or_empty(alloc, scope, ops.as_slice(), &form.outline), dropping ops;
        Ok((ops, outline))
    )
}

/// The unit of these parts, with the names and labels in reach at its end.
fn unit(scope: Scope, front: Front, ops: Items<Op>, outline: Outline) -> Resolved<Unit>
    ensures { Gives (λ unit. unit) result (Ok (unit_from (front_of front) (ops, outline, scope))) }
{
    let Front {
        declared,
        observer,
        ghosts,
        init,
    } = front;
    let (fields, shared, functions) = declared;
    in_turn!(
        funcs = with_retire(functions), dropping scope, fields, shared, ghosts, init, ops, outline;
        Ok(Unit {
            file: File {
                names: scope.names,
                fields,
                shared,
                funcs,
                ghosts,
                init,
                ops,
                labels: scope.labels,
            },
            observer,
            outline,
        })
    )
}

/// The parts of a file after its struct's name. The scope stays with the caller, which ends it.
#[tactic(auto, using(crate::proofs::Grouped::front_of_heading), unfolding(crate::specs::Parts::parts_mean))]
fn parts(
    alloc: Global,
    scope: &mut Scope,
    tokens: &[Token],
    form: &FileForm,
) -> Resolved<(Front, Items<Op>, Outline)>
    requires room { HasRoom scope.old (most_names - 2) }
    requires locals { scope.old.locals ≡ [] }
    requires labels { scope.old.labels ≡ [] }
    ensures { Gives (λ r. (front_of r.0, r.1, r.2, scope.new)) result
        (parts_mean (lines_of tokens.now) scope.old (file_tree form.now)) }
{
    let front = before_operations(alloc, scope, &form.heading)?;
    in_turn!(
        (ops, outline) = operations_and_outline(alloc, scope, tokens, form), dropping front;
        Ok((front, ops, outline))
    )
}

/// The unit that a file's tree means, with the lines of its tokens.
#[tactic(auto, unfolding(crate::specs::Meaning::file_means))]
pub fn file_unit(alloc: Global, tokens: &[Token], form: &FileForm) -> Resolved<Unit>
    ensures { Gives (λ unit. unit) result (file_means (lines_of tokens.now) (file_tree form.now)) }
{
    let mut scope = Scope::new(alloc)?;
    declare(&mut scope, form.heading.node.name, Binding::Taken)?;
    match parts(alloc, &mut scope, tokens, form) {
        Ok((front, ops, outline)) => unit(scope, front, ops, outline),
        Err(fault) => {
            drop(scope);
            Err(fault)
        }
    }
}
