//! What a block of dependencies calls.
ghost use Rattle.std.specs.Prelude.{◌≡◌, ◌<◌, ◌++◌, ◌∷◌, [], cond, IfOk, IfSome, OnOk, length, map};
ghost use Rattle.std.specs.Option.{option_map};
ghost use Rattle.std.specs.String.{string_bytes};
ghost use Rattle.std.specs.List.{flat_map, position};
ghost use Rattle.just_host.specs.Kinds.{AsksQuestions};
ghost use Rattle.evaluate_context.specs.Refusals.{seen_as};
ghost use Rattle.evaluate_expressions.specs.Situations.{reading_at, stage_at};
ghost use Rattle.meaning_dialogues.specs.Dialogue.{Evaluates};
ghost use Rattle.analyze_calls.specs.Blocks as spec;
ghost use Rattle.analyze_calls.specs.Blocks.{brings, brings_at, call_with, first_of, groups_for, others_of, rows_of, shared_out, starred_rows, values_of};
ghost use Rattle.analyze_calls.specs.Brought.{brought_rows};
ghost use Rattle.analyze_calls.specs.Calls.{row_of, rows};
ghost use Rattle.analyze_calls.specs.Placed.{placed_in};

use crate::call::Call;
use crate::plan::Runner;
use evaluate_context::Error;
use evaluate_expressions::internal;
use just_host::{Recorded, RunHost};
use just_value::Value;
use justfile_evaluator::Evaluator;
use std::alloc::{AllocError, Global};
use std::marker::Model;
use std::mem;
use tree_items::{DependencyArgument, Parameter, UnresolvedDependency};

/// A dependency's recipe, by its place, and that recipe's parameters.
#[derive(Clone, Copy)]
struct Callee<'a, 'src> {
    place: usize,
    parameters: &'a [Parameter<'src>],
}

/// The values of a dependency's arguments.
fn arguments<'src, H: RunHost + Drop>(
    alloc: Global,
    host: &mut Recorded<H>,
    evaluator: &Evaluator<'_, 'src>,
    arguments: &[DependencyArgument<'src>],
) -> Result<Vec<Value>, Error<'src>>
    ensures asks { AsksQuestions H.goes host.old host.new }
    ensures evaluates { Evaluates (reading_at evaluator.now) (values_of (stage_at evaluator.now) arguments.now) host.old.entries host.new.entries (seen_as (λ values. values.items) result) }
    ensures each { IfOk result (λ values. length values.items ≡ length arguments.now) }
{
    let mut values = Vec::with_capacity(alloc, arguments.len())?;
    for argument in arguments {
        values.push(evaluator.evaluate_value(alloc, host, &argument.expression)?)?;
    }
    Ok(values)
}

/// Values that are still to be given to parameters, in order.
#[derive(Drop)]
struct Remaining {
    last_first: Vec<Value>,
}

impl Model for Remaining {
    ghost use Rattle.std.specs.Prelude.{ℕ, List, reverse};

    ghost Value = { List (List (List ℕ)) };

    ghost view = { λ r. reverse r.last_first.items };
}

impl Remaining {
    /// These values.
    fn new(values: Vec<Value>) -> Remaining
        ensures { result ≡ values.items }
    {
        let mut last_first = values;
        last_first.reverse();
        Remaining { last_first }
    }

    /// Takes the next value, and the empty list where none is left.
    fn next(&mut self, alloc: Global) -> Value
        ensures next { result ≡ first_of self.old }
        ensures others { self.new ≡ others_of self.old }
    {
        match self.last_first.pop() {
            Some(value) => value,
            None => Value::new(alloc),
        }
    }

    /// Takes the elements of all values.
    fn all(&mut self, alloc: Global) -> Result<Value, AllocError>
        ensures all { IfOk result (λ value. value ≡ flat_map (λ v. v) self.old) }
        ensures none { self.new ≡ [] }
    {
        let mut values = mem::replace(&mut self.last_first, Vec::new(alloc));
        values.reverse();
        Value::from_values(alloc, values)
    }

    /// Takes the group of the next parameter: the next value, or all that remain for one that takes
    /// any number.
    fn group(&mut self, alloc: Global, is_variadic: bool) -> Result<Value, AllocError>
        ensures group { IfOk result (λ value. value ≡ cond is_variadic (flat_map (λ v. v) self.old) (first_of self.old)) }
        ensures others { self.new ≡ cond is_variadic [] (others_of self.old) }
    {
        if is_variadic {
            return self.all(alloc);
        }
        Ok(self.next(alloc))
    }
}

/// The groups of all parameters, of the values in their order.
fn groups(
    alloc: Global,
    parameters: &[Parameter],
    values: Vec<Value>,
) -> Result<Vec<Value>, AllocError>
    ensures { IfOk result (λ groups. groups.items ≡ shared_out parameters.now values.items) }
{
    let mut groups = Vec::with_capacity(alloc, parameters.len())?;
    let mut remaining = Remaining::new(values);
    for parameter in parameters {
        groups.push(remaining.group(alloc, parameter.kind.is_variadic())?)?;
    }
    Ok(groups)
}

/// The groups of all parameters: the values themselves where there is one for each.
fn grouped(
    alloc: Global,
    parameters: &[Parameter],
    values: Vec<Value>,
) -> Result<Vec<Value>, AllocError>
    ensures { IfOk result (λ groups. groups.items ≡ groups_for parameters.now values.items) }
{
    if values.len() == parameters.len() {
        return Ok(values);
    }
    groups(alloc, parameters, values)
}

/// The call with these arguments.
fn call(alloc: Global, callee: Callee, values: Vec<Value>) -> Result<Call, AllocError>
    ensures { IfOk result (λ call. row_of call ≡ call_with callee.entry.place callee.entry.parameters.now values.items) }
{
    let groups = grouped(alloc, callee.parameters, values)?;
    let recipe = callee.place;
    Ok(Call { recipe, groups })
}

/// Puts copies of the values after the others.
fn push_copies(all: &mut Vec<Value>, values: &[Value]) -> Result<(), AllocError>
    ensures { OnOk result (all.new.items ≡ all.old.items ++ values.now) }
{
    for value in values {
        all.push(value.clone()?)?;
    }
    Ok(())
}

/// The values around the element.
fn with_element(
    alloc: Global,
    before: &[Value],
    element: &str,
    behind: &[Value],
) -> Result<Vec<Value>, AllocError>
    ensures { IfOk result (λ values. values.items ≡ before.now ++ (element.now ∷ []) ∷ behind.now) }
{
    let mut all = Vec::new(alloc);
    push_copies(&mut all, before)?;
    all.push(Value::from_text(alloc, element)?)?;
    push_copies(&mut all, behind)?;
    Ok(all)
}

/// Puts a call for each of the elements, between these values, after the others.
fn push_each(
    alloc: Global,
    calls: &mut Vec<Call>,
    callee: Callee,
    before: &[Value],
    elements: &[String],
    behind: &[Value],
) -> Result<(), AllocError>
    ensures { OnOk result (rows calls.new.items ≡ rows calls.old.items ++ map (λ element. call_with callee.entry.place callee.entry.parameters.now (before.now ++ (element ∷ []) ∷ behind.now)) (map string_bytes elements.now)) }
{
    for element in elements {
        let values = with_element(alloc, before, element.as_str(), behind)?;
        calls.push(call(alloc, callee, values)?)?;
    }
    Ok(())
}

/// A call for each element of the value at this place, between the values around it.
fn starred_calls(
    alloc: Global,
    callee: Callee,
    values: &[Value],
    star: usize,
) -> Result<Vec<Call>, AllocError>
    ensures { star < length values.now → IfOk result (λ calls. rows calls.items ≡ map (call_with callee.entry.place callee.entry.parameters.now) (starred_rows star values.now)) }
{
    let mut calls = Vec::new(alloc);
    let Some(starred) = values.get(star) else {
        return Ok(calls);
    };
    let (before, _rest) = values.split_at(star);
    let (_others, behind) = values.split_at(star + 1);
    push_each(
        alloc,
        &mut calls,
        callee,
        before,
        starred.elements(),
        behind,
    )?;
    Ok(calls)
}

/// The place of the first argument that is starred, if one is.
fn starred_place(arguments: &[DependencyArgument]) -> Option<usize>
    ensures { result ≡ position (λ argument. argument.starred) arguments.now }
{
    arguments.iter().position(|argument| argument.starred)
}

/// The calls of a dependency: one, or one for each element of a starred argument.
#[derive(Drop)]
enum Brought {
    One(Call),
    Each(Vec<Call>),
}

/// The calls with these arguments.
fn bring(
    alloc: Global,
    callee: Callee,
    values: Vec<Value>,
    arguments: &[DependencyArgument],
) -> Result<Brought, AllocError>
    ensures { length values.items ≡ length arguments.now → IfOk result (λ brought. brought_rows brought ≡ map (call_with callee.entry.place callee.entry.parameters.now) (rows_of arguments.now values.items)) }
{
    let Some(star) = starred_place(arguments) else {
        return Ok(Brought::One(call(alloc, callee, values)?));
    };
    let calls = starred_calls(alloc, callee, values.as_slice(), star)?;
    Ok(Brought::Each(calls))
}

/// Puts the calls after the others.
fn push(calls: &mut Vec<Call>, brought: Brought) -> Result<(), AllocError>
    ensures { OnOk result (rows calls.new.items ≡ rows calls.old.items ++ brought_rows brought) }
{
    match brought {
        Brought::One(call) => Ok(calls.push(call)?),
        Brought::Each(mut others) => Ok(calls.append(&mut others)?),
    }
}

/// The calls of a dependency.
fn calls_of<'src, H: RunHost + Drop>(
    alloc: Global,
    host: &mut Recorded<H>,
    evaluator: &Evaluator<'_, 'src>,
    callee: Callee<'_, 'src>,
    written: &[DependencyArgument<'src>],
) -> Result<Brought, Error<'src>>
    ensures asks { AsksQuestions H.goes host.old host.new }
    ensures evaluates { Evaluates (reading_at evaluator.now) (brings (stage_at evaluator.now) callee.entry.place callee.entry.parameters.now written.now) host.old.entries host.new.entries (seen_as brought_rows result) }
{
    let values = arguments(alloc, host, evaluator, written)?;
    let calls = bring(alloc, callee, values, written)?;
    Ok(calls)
}

/// The recipe at the place, with its parameters.
fn callee_at<'m, 'src>(runner: &Runner<'m, 'src>, place: usize) -> Option<Callee<'m, 'src>>
    ensures place { IfSome result (λ callee. callee.place ≡ place) }
    ensures parameters { option_map (λ callee. callee.parameters.now) result ≡ option_map (λ placed. placed.0.recipe.now.parameters.items) (placed_in runner.now place) }
{
    let planned = runner.recipes.get(place)?;
    let _context = runner.contexts.get(planned.module)?;
    let parameters = planned.recipe.parameters.as_slice();
    Some(Callee { place, parameters })
}

/// The calls of a dependency on the recipe at the place.
fn calls_at<'src, H: RunHost + Drop>(
    alloc: Global,
    host: &mut Recorded<H>,
    evaluator: &Evaluator<'_, 'src>,
    runner: &Runner<'_, 'src>,
    place: usize,
    written: &[DependencyArgument<'src>],
) -> Result<Brought, Error<'src>>
    ensures asks { AsksQuestions H.goes host.old host.new }
    ensures evaluates { Evaluates (reading_at evaluator.now) (brings_at (stage_at evaluator.now) place (placed_in runner.now place) written.now) host.old.entries host.new.entries (seen_as brought_rows result) }
{
    match callee_at(runner, place) {
        Some(callee) => calls_of(alloc, host, evaluator, callee, written),
        None => Err(internal(alloc, "dependency without a recipe")),
    }
}

/// The calls of dependencies, all of whose arguments are evaluated in order; the places are those
/// of their recipes. Refused as evaluation of an argument is, and as `Internal` where a place is that
/// of no recipe.
pub(crate) fn block<'src, H: RunHost + Drop>(
    alloc: Global,
    host: &mut Recorded<H>,
    evaluator: &Evaluator<'_, 'src>,
    runner: &Runner<'_, 'src>,
    dependencies: &[UnresolvedDependency<'src>],
    places: &[usize],
) -> Result<Vec<Call>, Error<'src>>
    ensures asks { AsksQuestions H.goes host.old host.new }
    ensures evaluates { Evaluates (reading_at evaluator.now) (spec.block runner.now (stage_at evaluator.now) dependencies.now places.now) host.old.entries host.new.entries (seen_as (λ calls. rows calls.items) result) }
{
    let mut calls = Vec::with_capacity(alloc, dependencies.len())?;
    for (dependency, place) in dependencies.iter().zip(places) {
        let arguments = dependency.arguments.as_slice();
        let brought = calls_at(alloc, host, evaluator, runner, *place, arguments)?;
        push(&mut calls, brought)?;
    }
    Ok(calls)
}
