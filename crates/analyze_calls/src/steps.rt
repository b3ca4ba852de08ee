//! How a call begins and how it ends.
ghost use Rattle.std.specs.Prelude.{◌≡◌, ◌<◌, true, false, IfOk, IfErr, Some};
ghost use Rattle.std.specs.Option.{option_map};
ghost use Rattle.justfile_evaluator.specs.Ended.{IsTold};
ghost use Rattle.analyze_calls.specs.Calls.{row_of, rows};
ghost use Rattle.analyze_calls.specs.Ran.{IfGiven, ended_as};
ghost use Rattle.meaning_runs.specs.Task.{TaskBegins};
ghost use Rattle.analyze_calls.specs.Around.{Heads, SaysOwn, Tails, TailsBegin, head_task, own_reading, own_stage};
ghost use Rattle.analyze_calls.specs.Asked.{AsksIn, AsksUser};
ghost use Rattle.analyze_calls.specs.Binding.{Binds};
ghost use Rattle.analyze_calls.specs.Entered.{entered_of};
ghost use Rattle.analyze_calls.specs.Runs.Cut.{HasBegun, HasEnded};
ghost use Rattle.analyze_calls.specs.Runs.Ran.{SaysIn};
ghost use Rattle.analyze_calls.specs.Runs.Steps.{Begins, Ends, BeginsAt, HeadsBelow, begun, shares_at};
ghost use Rattle.analyze_calls.specs.Placed.{placed_in};
ghost use Rattle.analyze_calls.specs.Runs.Steps as spec;
ghost use Rattle.analyze_calls.specs.Runs.Weight.{AreBelow};
ghost use Rattle.just_host.specs.Kinds.{AsksQuestions, AsksWork};

use crate::frame::Subsequents;
use crate::{Call, Entered, Pending, Placed, Runner, begin, end, enter_recipe};
use just_host::{Recorded, RunHost};
use just_value::Value;
use justfile_evaluator::RunFault;
use std::alloc::Global;

/// Whether the call is of no recipe before that place.
fn is_from(call: &Call, place: usize) -> bool
    ensures { result ≡ spec.is_from place (row_of call.now) }
{
    call.recipe >= place
}

/// Whether one of the calls is of no recipe before that place.
fn any_from(calls: &[Call], place: usize) -> bool
    ensures { result ≡ spec.any_call_from place calls.now }
{
    calls.iter().any(|call| is_from(call, place))
}

/// The calls, if all are of recipes before that place.
#[tactic(auto, using(crate::proofs::Runs::Beginnings::none_from))]
fn ranked<'src>(alloc: Global, calls: Vec<Call>, place: usize) -> Result<Pending, RunFault<'src>>
    ensures below { IfOk result (AreBelow place) }
    ensures same { IfOk result (λ pending. (pending ≡ calls.items) × (spec.any_call_from place calls.items ≡ false)) }
    ensures refused { IfErr result (λ _. spec.any_call_from place calls.items ≡ true) }
    ensures told { IfErr result IsTold }
{
    let _count = calls.len();
    if any_from(calls.as_slice(), place) {
        return Err(RunFault::internal(alloc, "dependency behind its recipe"));
    }
    Ok(Pending::new(calls))
}

/// A call of no recipe, or of one whose module is none.
fn lost_recipe<'src>(alloc: Global) -> RunFault<'src>
    ensures { IsTold result }
{
    RunFault::internal(alloc, "call without a recipe")
}

/// The recipe at the place, and what its module's recipes rest on.
fn placed<'m, 'src>(runner: &Runner<'m, 'src>, place: usize) -> Option<Placed<'m, 'src>>
    ensures { option_map (λ p. (p.planned.now, p.context.now)) result ≡ placed_in runner.now place }
{
    let planned = runner.recipes.get(place)?;
    let context = runner.contexts.get(planned.module)?;
    Some(Placed { planned, context })
}

/// What the recipe is entered with.
fn boxed<'m, 'src, H: RunHost + Drop>(
    alloc: Global,
    host: &mut Recorded<H>,
    placed: &Placed<'m, 'src>,
    groups: &[Value],
    is_dependency: bool,
) -> Result<Box<Entered<'m, 'src>>, RunFault<'src>>
    ensures asks { AsksQuestions H.goes host.old host.new }
    ensures flag { IfOk result (λ e. e.value.is_dependency ≡ is_dependency) }
    ensures binds { Binds placed.now.planned.now placed.now.context.now is_dependency groups.now host.old.entries host.new.entries (ended_as (λ e. entered_of e.value) result) }
    ensures told { IfErr result IsTold }
{
    let entered = enter_recipe(alloc, host, placed, groups, is_dependency)?;
    Ok(Box::new(alloc, entered)?)
}

/// Confirms the recipe at the place, and gives the calls before its body.
fn priors<'m, 'src, H: RunHost + Drop>(
    alloc: Global,
    host: &mut Recorded<H>,
    runner: &Runner<'m, 'src>,
    placed: &Placed<'m, 'src>,
    entered: &Entered<'m, 'src>,
    place: usize,
) -> Result<Pending, RunFault<'src>>
    ensures below { IfOk result (AreBelow place) }
    ensures asks { AsksUser H.goes host.old host.new }
    ensures begun { TaskBegins (own_reading placed.now.planned.now placed.now.context.now entered.now.is_dependency (entered_of entered.now)) (head_task runner.now placed.now.planned.now placed.now.context.now.config.now (own_stage placed.now.planned.now placed.now.context.now entered.now.is_dependency (entered_of entered.now))) host.old.entries host.new.entries }
    ensures heads { IfGiven (λ p. rows p) host.new.exhausted result (HeadsBelow place (Heads placed.now.planned.now placed.now.context.now entered.now.is_dependency (entered_of entered.now) runner.now host.old.entries host.new.entries)) }
    ensures told { IfErr result IsTold }
{
    let calls = begin(alloc, host, runner, placed, entered)?;
    ranked(alloc, calls, place)
}

/// Enters the call's recipe, which is this one.
fn enter_placed<'m, 'src, H: RunHost + Drop>(
    alloc: Global,
    host: &mut Recorded<H>,
    runner: &Runner<'m, 'src>,
    placed: &Placed<'m, 'src>,
    call: &Call,
    is_dependency: bool,
) -> Result<(Box<Entered<'m, 'src>>, Pending), RunFault<'src>>
    ensures below { IfOk result (λ r. AreBelow call.now.recipe r.1) }
    ensures asks { AsksUser H.goes host.old host.new }
    ensures flag { IfOk result (λ r. r.0.value.is_dependency ≡ is_dependency) }
    ensures begun { placed_in runner.now call.now.recipe ≡ Some (placed.now.planned.now, placed.now.context.now) → HasBegun runner.now (row_of call.now) is_dependency host.old.entries host.new.entries }
    ensures goes { IfGiven (λ r. begun (r.0.value, r.1)) host.new.exhausted result (BeginsAt runner.now placed.now.planned.now placed.now.context.now (row_of call.now) is_dependency host.old.entries host.new.entries) }
    ensures told { IfErr result IsTold }
{
    let groups = call.groups.as_slice();
    let entered = boxed(alloc, host, placed, groups, is_dependency)?;
    let priors = priors(alloc, host, runner, placed, &entered, call.recipe)?;
    Ok((entered, priors))
}

/// Enters the call's recipe: what it is entered with, and the calls before its body.
pub(crate) fn enter<'m, 'src, H: RunHost + Drop>(
    alloc: Global,
    host: &mut Recorded<H>,
    runner: &Runner<'m, 'src>,
    call: &Call,
    is_dependency: bool,
) -> Result<(Box<Entered<'m, 'src>>, Pending), RunFault<'src>>
    ensures below { IfOk result (λ r. AreBelow call.now.recipe r.1) }
    ensures asks { AsksUser H.goes host.old host.new }
    ensures flag { IfOk result (λ r. r.0.value.is_dependency ≡ is_dependency) }
    ensures begun { HasBegun runner.now (row_of call.now) is_dependency host.old.entries host.new.entries }
    ensures goes { IfGiven (λ r. begun (r.0.value, r.1)) host.new.exhausted result (Begins runner.now (row_of call.now) is_dependency host.old.entries host.new.entries) }
    ensures told { IfErr result IsTold }
{
    let Some(placed) = placed(runner, call.recipe) else {
        return Err(lost_recipe(alloc));
    };
    enter_placed(alloc, host, runner, &placed, call, is_dependency)
}

/// Runs the body of the recipe at the place, and gives the calls after it.
fn subsequents<'m, 'src, H: RunHost + Drop>(
    alloc: Global,
    host: &mut Recorded<H>,
    runner: &Runner<'m, 'src>,
    placed: &Placed<'m, 'src>,
    entered: &Entered<'m, 'src>,
    place: usize,
) -> Result<Subsequents, RunFault<'src>>
    ensures below { IfOk result (λ behind. AreBelow place behind.calls) }
    ensures asks { AsksWork placed.now.context.now.config.now.dry_run H.goes host.old host.new }
    ensures shared { IfOk result (λ behind. behind.are_shared ≡ placed.now.context.now.module.now.settings.now.share_subsequents) }
    ensures begun { TailsBegin placed.now.planned.now placed.now.context.now entered.now.is_dependency (entered_of entered.now) runner.now host.old.entries host.new.entries }
    ensures goes { IfGiven (λ behind. rows behind.calls) host.new.exhausted result (HeadsBelow place (Tails placed.now.planned.now placed.now.context.now entered.now.is_dependency (entered_of entered.now) runner.now host.old.entries host.new.entries)) }
    ensures said { IfErr result (SaysOwn placed.now.planned.now placed.now.context.now) }
{
    let brought = end(alloc, host, runner, placed, entered)?;
    let calls = ranked(alloc, brought, place)?;
    Ok(Subsequents {
        calls,
        are_shared: placed.context.module.settings.share_subsequents,
    })
}

/// Runs the call's body, if there is one, and gives the calls after it.
pub(crate) fn leave<'m, 'src, H: RunHost + Drop>(
    alloc: Global,
    host: &mut Recorded<H>,
    runner: &Runner<'m, 'src>,
    call: &Call,
    entered: &Entered<'m, 'src>,
) -> Result<Subsequents, RunFault<'src>>
    ensures below { IfOk result (λ behind. AreBelow call.now.recipe behind.calls) }
    ensures asks { AsksIn runner.now.contexts.now H.goes host.old host.new }
    ensures shared { IfOk result (λ behind. behind.are_shared ≡ shares_at runner.now (row_of call.now)) }
    ensures begun { HasEnded runner.now (row_of call.now) entered.now.is_dependency (entered_of entered.now) host.old.entries host.new.entries }
    ensures goes { IfGiven (λ behind. rows behind.calls) host.new.exhausted result (Ends runner.now (row_of call.now) entered.now.is_dependency (entered_of entered.now) host.old.entries host.new.entries) }
    ensures said { IfErr result (SaysIn runner.now) }
{
    let Some(placed) = placed(runner, call.recipe) else {
        return Err(lost_recipe(alloc));
    };
    subsequents(alloc, host, runner, &placed, entered, call.recipe)
}
