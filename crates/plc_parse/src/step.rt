// Primitives that are one step: those of an atomic block and those of `init`. A step has at most 64,
// of which one allocates; `skip` counts for none.
ghost use Rattle.std.specs.Prelude.{◌≡◌, ◌==◌, ◌+◌, ◌≤◌, if◌then◌else◌, Option, Some, Result, Ok, false, length, map};
ghost use Rattle.plc_base.specs.Limits.{most};
ghost use Rattle.plc_lang.specs.declared.syntax.Primitive.{Primitive};
ghost use Rattle.plc_syntax.specs.Views.{placed_as};
ghost use Rattle.plc_scope.specs.Answers.{Gives};
ghost use Rattle.plc_scope.specs.Limits.{stands_at};
ghost use Rattle.plc_scope.specs.Scope.{most_locals};
ghost use Rattle.plc_scope.specs.declared.fault.ParseFault.{ParseFault};
ghost use Rattle.plc_parse.specs.Kinds.{atomic_forms, initial_forms};
ghost use Rattle.plc_parse.specs.Meaning.{forms_mean};
ghost use Rattle.plc_parse.specs.Views.{with_form};

use plc_base::{Items, What1};
use plc_lang::{Prim, is_new};
use plc_scope::{ParseFault, Resolved, Scope, initial, primitive};
use plc_syntax::{Initial, Placed, Primitive as PrimitiveForm};
use std::alloc::Global;

/// The primitives of a step so far, and whether one of them allocates.
#[derive(Drop)]
struct Step {
    primitives: Items<Prim>,
    has_new: bool,
}

impl Step {
    /// Whether there are as many primitives as there may be.
    fn is_full(&self) -> bool
        ensures { result ≡ (length self.now.primitives == most What1.Prims) }
    {
        self.primitives.len() == What1::Prims.most() as usize
    }

    /// One more primitive.
    fn push(&mut self, primitive: Prim) -> Result<(), ParseFault>
        ensures { Gives (λ _. (self.new.primitives, self.new.has_new)) result
            (with_form self.old.primitives self.old.has_new 0 (Ok (Some primitive))) }
    {
        if self.is_full() {
            return Err(ParseFault::past(What1::Prims));
        }
        if self.has_new && is_new(&primitive) {
            return Err(ParseFault::past(What1::News));
        }
        self.has_new = self.has_new || is_new(&primitive);
        self.primitives.push(primitive)?;
        Ok(())
    }

    /// What a form at a place means, added. The limit's place is the form's first token, so a fault of
    /// that token goes before it.
    fn add(&mut self, at: u32, meaning: Resolved<Option<Prim>>) -> Result<(), ParseFault>
        ensures { (said : Result (Option Primitive) ParseFault) → Gives (λ k. k) meaning said
            → Gives (λ _. (self.new.primitives, self.new.has_new)) result
            (with_form self.old.primitives self.old.has_new at said) }
    {
        match meaning {
            Ok(Some(primitive)) => self.push(primitive),
            Ok(None) => Ok(()),
            Err(ParseFault::Memory) => Err(ParseFault::Memory),
            Err(fault) => Err(self.fault(at, fault)),
        }
    }

    /// A fault of a form, or that there is no room for the form.
    fn fault(&self, at: u32, fault: ParseFault) -> ParseFault
        ensures { result ≡ (if stands_at at fault then fault
            else (if length self.now.primitives == most What1.Prims
            then ParseFault.Limit What1.Prims (most What1.Prims + 1) else fault)) }
    {
        if self.is_full() && !fault.stands_at(at) {
            return ParseFault::past(What1::Prims);
        }
        fault
    }
}

/// A form that a step is made of.
pub trait StepForm: Copy {
    ghost use Rattle.std.specs.Prelude.{◌≤◌, length};
    ghost use Rattle.plc_scope.specs.Answers.{Gives};
    ghost use Rattle.plc_scope.specs.Scope.{most_locals};
    ghost use Rattle.plc_parse.specs.Kinds.{FormKind};

    ghost kind: { FormKind Self };

    /// What the form means.
    fn meaning(self, scope: &Scope) -> Resolved<Option<Prim>>
        requires { length scope.now.locals ≤ most_locals }
        ensures { Gives (λ k. k) result (kind.means scope.now (kind.tree self)) };
}

impl<'a> StepForm for PrimitiveForm<'a> {
    ghost kind = { atomic_forms };

    fn meaning(self, scope: &Scope) -> Resolved<Option<Prim>> {
        primitive(scope, self)
    }
}

impl<'a> StepForm for Initial<'a> {
    ghost kind = { initial_forms };

    fn meaning(self, scope: &Scope) -> Resolved<Option<Prim>> {
        initial(scope, self)
    }
}

/// The primitives of a step.
pub fn step_of<F: StepForm>(
    alloc: Global,
    scope: &Scope,
    forms: &[Placed<F>],
) -> Resolved<Items<Prim>>
    requires { length scope.now.locals ≤ most_locals }
    ensures { Gives (λ primitives. primitives) result
        (forms_mean (F.kind.means scope.now) 0 false (map (placed_as F.kind.tree) forms.now)) }
{
    let mut step = Step {
        primitives: Items::new(alloc),
        has_new: false,
    };
    for form in forms {
        step.add(form.at, form.value.meaning(scope))?;
    }
    Ok(step.primitives)
}
