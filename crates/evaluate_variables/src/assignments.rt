//! The variables of a module.
ghost use Rattle.std.specs.Prelude.{◌≡◌, ◌≢◌, ◌∷◌, ◌||◌, [], Err, IfErr};
ghost use Rattle.just_host.specs.Kinds.{AsksQuestions};
ghost use Rattle.evaluate_context.specs.Refusals.{seen};
ghost use Rattle.meaning_dialogues.specs.Dialogue.{Evaluates};
ghost use Rattle.meaning_dialogues.specs.Faults.{memory};
ghost use Rattle.meaning_dialogues.specs.Terms.{term_of};
ghost use Rattle.meaning_evaluation.specs.Stages.Assigned.{assigned_dialogue};
ghost use Rattle.evaluate_variables.specs.Known.{IsProper, VariablesKnown};
ghost use Rattle.evaluate_variables.specs.Opened.{BeginsInside, BeginsOpening, Opens, OpensFrame, assigned, opening_reading, opening_stage, ordered, overridden, reads, refusal};

use evaluate_context::{Error, ExecutionContext};
use evaluate_expressions::Evaluator;
use just_host::{Host, Recorded};
use just_text::Number;
use just_value::{Scope, Value};
use std::alloc::Global;
use std::collections::BTreeSet;
use tree_items::Assignment;

/// What the variable stands for: the text that overrides it, else its expression's value.
fn assigned_value<'src, H: Host + Drop>(
    alloc: Global,
    host: &mut Recorded<H>,
    context: &ExecutionContext<'_, 'src>,
    scope: &Scope<'_, 'src>,
    assignment: &Assignment<'src>,
) -> Result<Value, Error<'src>>
    ensures asks { AsksQuestions H.goes host.old host.new }
    ensures evaluates { Evaluates (opening_reading scope.now) (assigned_dialogue (overridden context.now.overrides.now assignment.now.number) (opening_stage context.now scope.now) (term_of assignment.now.value)) host.old.entries host.new.entries (seen result) }
{
    if let Some(text) = context.overrides.get(&assignment.number) {
        return Ok(Value::from_text(alloc, text.as_str())?);
    }
    Evaluator::opening(context, scope).evaluate_value(alloc, host, &assignment.value)
}

/// Whether the number is among those that are read, or no numbers are given.
fn is_read(references: Option<&BTreeSet<Number>>, number: Number) -> bool
    ensures { result ≡ reads references.entry number }
{
    match references {
        Some(references) => references.contains(&number),
        None => true,
    }
}

/// Whether the variable is exported, by its own word or by the module's setting.
fn is_exported(context: &ExecutionContext, assignment: &Assignment) -> bool
    ensures { result ≡ assignment.now.export || context.now.module.now.settings.now.export }
{
    assignment.export || context.module.settings.export
}

/// Evaluates the variable into the scope's innermost frame, if it is among those that are read and is
/// not bound already.
#[tactic(auto, using(crate::proofs::Opening::opening_here))]
fn open_assignment<'src, H: Host + Drop>(
    alloc: Global,
    host: &mut Recorded<H>,
    context: &ExecutionContext<'_, 'src>,
    scope: &mut Scope<'_, 'src>,
    references: Option<&BTreeSet<Number>>,
    assignment: &Assignment<'src>,
) -> Result<(), Error<'src>>
    ensures asks { AsksQuestions H.goes host.old host.new }
    ensures around { scope.new.outer ≡ scope.old.outer }
    ensures opens { seen result ≢ Err memory → Opens context.now scope.old.outer (reads references.entry) (assigned assignment.entry ∷ []) scope.old.own host.old.entries scope.new.own host.new.entries (refusal result) }
    ensures begun { BeginsOpening context.now scope.old.outer (reads references.entry) (assigned assignment.entry ∷ []) scope.old.own host.old.entries host.new.entries }
{
    let number = assignment.number;
    if !is_read(references, number) {
        return Ok(());
    }
    if scope.binding(number).is_some() {
        return Ok(());
    }
    let value = assigned_value(alloc, host, context, &*scope, assignment)?;
    let export = is_exported(context, assignment);
    scope.bind_value(assignment.name, number, export, value)?;
    Ok(())
}

/// Evaluates the variable at the place so, if there is one there.
#[tactic(auto, using(crate::proofs::Opening::opening_here))]
fn open_place<'src, H: Host + Drop>(
    alloc: Global,
    host: &mut Recorded<H>,
    context: &ExecutionContext<'_, 'src>,
    scope: &mut Scope<'_, 'src>,
    references: Option<&BTreeSet<Number>>,
    place: usize,
) -> Result<(), Error<'src>>
    ensures asks { AsksQuestions H.goes host.old host.new }
    ensures around { scope.new.outer ≡ scope.old.outer }
    ensures opens { seen result ≢ Err memory → Opens context.now scope.old.outer (reads references.entry) (ordered context.now.module.now.assignments.now (place ∷ [])) scope.old.own host.old.entries scope.new.own host.new.entries (refusal result) }
    ensures begun { BeginsOpening context.now scope.old.outer (reads references.entry) (ordered context.now.module.now.assignments.now (place ∷ [])) scope.old.own host.old.entries host.new.entries }
{
    match context.module.assignments.get(place) {
        Some(variable) => {
            open_assignment(alloc, host, context, scope, references, variable.assignment)
        }
        None => Ok(()),
    }
}

/// Evaluates the module's variables in their order into the scope's innermost frame: those of these
/// numbers alone where numbers are given, and none that is bound already. The context's scope is the
/// one around that frame. A refused one leaves those before it bound.
pub fn open_assignments<'src, H: Host + Drop>(
    alloc: Global,
    host: &mut Recorded<H>,
    context: &ExecutionContext<'_, 'src>,
    scope: &mut Scope<'_, 'src>,
    references: Option<&BTreeSet<Number>>,
) -> Result<(), Error<'src>>
    ensures asks { AsksQuestions H.goes host.old host.new }
    ensures around { scope.new.outer ≡ scope.old.outer }
    ensures opens { seen result ≢ Err memory → Opens context.now scope.old.outer (reads references.entry) (ordered context.now.module.now.assignments.now context.now.module.now.evaluation_order.now) scope.old.own host.old.entries scope.new.own host.new.entries (refusal result) }
    ensures begun { BeginsOpening context.now scope.old.outer (reads references.entry) (ordered context.now.module.now.assignments.now context.now.module.now.evaluation_order.now) scope.old.own host.old.entries host.new.entries }
{
    for place in context.module.evaluation_order {
        open_place(alloc, host, context, scope, references, *place)?;
    }
    Ok(())
}

/// The module's frame inside the context's scope, which is that of the constants: its variables in
/// their order, those of these numbers alone where numbers are given.
pub fn evaluate_assignments<'a, 'src, H: Host + Drop>(
    alloc: Global,
    host: &mut Recorded<H>,
    context: &ExecutionContext<'a, 'src>,
    references: Option<&BTreeSet<Number>>,
) -> Result<Scope<'a, 'src>, Error<'src>>
    ensures asks { AsksQuestions H.goes host.old host.new }
    ensures opens { OpensFrame context.now (reads references.entry) host.old.entries host.new.entries result }
    ensures begun { BeginsInside context.now (reads references.entry) host.old.entries host.new.entries }
    ensures known { VariablesKnown context.now (reads references.entry) → IfErr result IsProper }
{
    open_frame(alloc, host, context, references)
}

/// The module's frame inside the context's scope.
#[tactic(auto, using(crate::proofs::Opening::opening_here))]
fn open_frame<'a, 'src, H: Host + Drop>(
    alloc: Global,
    host: &mut Recorded<H>,
    context: &ExecutionContext<'a, 'src>,
    references: Option<&BTreeSet<Number>>,
) -> Result<Scope<'a, 'src>, Error<'src>>
    ensures asks { AsksQuestions H.goes host.old host.new }
    ensures opens { OpensFrame context.now (reads references.entry) host.old.entries host.new.entries result }
    ensures begun { BeginsInside context.now (reads references.entry) host.old.entries host.new.entries }
{
    let mut scope = context.scope.child(alloc)?;
    match open_assignments(alloc, host, context, &mut scope, references) {
        Ok(()) => Ok(scope),
        Err(error) => {
            drop(scope);
            Err(error)
        }
    }
}
