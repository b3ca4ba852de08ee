//! The loop over what is still to do.
ghost use Rattle.std.specs.Prelude.{◌≡◌, ◌<◌, ◌∷◌, [], true, false, cond, IfErr, IfOk, OnOk, Some};
ghost use Rattle.justfile_evaluator.specs.Ended.{IsTold};
ghost use Rattle.analyze_calls.specs.Calls.{row_of, rows, same_call};
ghost use Rattle.analyze_calls.specs.Asked.{AsksIn, AsksUser};
ghost use Rattle.analyze_calls.specs.Entered.{entered_of};
ghost use Rattle.analyze_calls.specs.Runs.Frames.{aside};
ghost use Rattle.analyze_calls.specs.Runs.Todo.{Calls, Body, After, before};
ghost use Rattle.analyze_calls.specs.Runs.Tallies.{HasCounted, tally_of};
ghost use Rattle.analyze_calls.specs.Runs.Ran.{IfRan, IfTurned, SaysIn};
ghost use Rattle.analyze_calls.specs.Runs.Cut.{BeginsRun, parts_cut};
ghost use Rattle.analyze_calls.specs.Runs.Rest.{Rest, RestBegins, Leads, HasRun};
ghost use Rattle.analyze_calls.specs.Runs.Rest as rest;
ghost use Rattle.analyze_calls.specs.Runs.Steps.{parts};
ghost use Rattle.analyze_calls.specs.Runs.Weight.{weight};
ghost use Rattle.meaning_runs.specs.Parts.{Joins};
ghost use Rattle.meaning_runs.specs.Tallies as runs;

use crate::frame::{Frame, Subsequents};
use crate::stack::Stack;
use crate::steps::{enter, leave};
use crate::tally::Tally;
use crate::{Call, Done, Entered, Pending, Runner};
use just_host::{Recorded, RunHost};
use justfile_evaluator::RunFault;
use std::alloc::{AllocError, Global};
use std::mem;

/// Puts calls on the stack, if there are any.
fn push_calls<'m, 'src>(
    stack: &mut Stack<'m, 'src>,
    pending: Pending,
    are_dependencies: bool,
) -> Result<(), AllocError>
    ensures { OnOk result (stack.new ≡ before are_dependencies (rows pending) stack.old) }
{
    if pending.is_empty() {
        return Ok(());
    }
    stack.push(Frame::Calls {
        pending,
        are_dependencies,
    })
}

/// Puts the priors on the stack, before the body.
fn push_entered<'m, 'src>(
    stack: &mut Stack<'m, 'src>,
    call: Call,
    entered: Box<Entered<'m, 'src>>,
    priors: Pending,
) -> Result<(), AllocError>
    ensures { OnOk result (stack.new ≡ before true (rows priors) (Body (row_of call) entered.entry.value.is_dependency (entered_of entered.entry.value) ∷ stack.old)) }
{
    stack.push(Frame::Body { call, entered })?;
    push_calls(stack, priors, true)
}

/// Runs the first of the calls, unless it was done.
fn turn_calls<'m, 'src, H: RunHost + Drop>(
    alloc: Global,
    host: &mut Recorded<H>,
    runner: &Runner<'m, 'src>,
    stack: &mut Stack<'m, 'src>,
    done: &Done,
    tally: &mut Tally,
    mut pending: Pending,
    are_dependencies: bool,
) -> Result<(), RunFault<'src>>
    ensures nearer { OnOk result (weight stack.new < weight (Calls are_dependencies (rows pending) ∷ stack.old)) }
    ensures counted { HasCounted tally.old tally.new }
    ensures asks { AsksUser H.goes host.old host.new }
    // What the stack does from here on, it did with these calls on it; a failure ends the run.
    ensures goes { IfTurned host.new.exhausted result
        (Leads (parts_cut runner.now) (Calls are_dependencies (rows pending) ∷ stack.old) done.now host.old.entries (tally_of tally.old) stack.new done.now host.new.entries (tally_of tally.new))
        (λ failure. Rest (parts_cut runner.now) (Calls are_dependencies (rows pending) ∷ stack.old) done.now host.old.entries (tally_of tally.old) host.new.entries (tally_of tally.new) (Some failure)) }
    // However it ended, what was recorded is what the stack does with these calls on it, where a step may be cut.
    ensures begun { RestBegins (parts_cut runner.now) (Calls are_dependencies (rows pending) ∷ stack.old) done.now host.old.entries (tally_of tally.old) host.new.entries }
    ensures told { IfErr result IsTold }
{
    let Some(call) = pending.next() else {
        return Ok(());
    };
    tally.meet();
    push_calls(stack, pending, are_dependencies)?;
    if done.has(&call) {
        return Ok(());
    }
    tally.enter();
    let (entered, priors) = enter(alloc, host, runner, &call, are_dependencies)?;
    Ok(push_entered(stack, call, entered, priors)?)
}

/// Sets aside what was done, so that nothing is done for subsequents; sets nothing aside where they
/// share it.
fn set_aside(
    alloc: Global,
    done: &mut Done,
    are_shared: bool,
) -> Result<Option<Box<Done>>, AllocError>
    ensures aside { IfOk result (λ outer. aside outer ≡ rest.set_aside are_shared done.old) }
    ensures left { done.new ≡ cond are_shared done.old [] }
{
    if are_shared {
        return Ok(None);
    }
    let outer = mem::replace(done, Done::new(alloc));
    Ok(Some(Box::new(alloc, outer)?))
}

/// Takes back what was set aside, and drops what was done since; keeps that where nothing was set
/// aside.
fn restore(done: &mut Done, outer: Option<Box<Done>>)
    ensures { done.new ≡ rest.restored (aside outer) done.old }
{
    if let Some(outer) = outer {
        *done = Box::into_inner(outer);
    }
}

/// Puts the subsequents on the stack, before what follows them, with nothing done unless they share
/// what was done.
fn push_subsequents<'m, 'src>(
    alloc: Global,
    stack: &mut Stack<'m, 'src>,
    done: &mut Done,
    call: Call,
    subsequents: Subsequents,
) -> Result<(), AllocError>
    ensures stack { OnOk result (stack.new ≡ Calls true (rows subsequents.calls) ∷ After (row_of call) (rest.set_aside subsequents.are_shared done.old) ∷ stack.old) }
    ensures done { OnOk result (done.new ≡ cond subsequents.are_shared done.old []) }
{
    let Subsequents { calls, are_shared } = subsequents;
    let outer = set_aside(alloc, done, are_shared)?;
    stack.push(Frame::After { call, outer })?;
    stack.push(Frame::Calls {
        pending: calls,
        are_dependencies: true,
    })
}

/// Runs the call's body, and puts what follows it on the stack; where nothing does, the call is done.
fn turn_body<'m, 'src, H: RunHost + Drop>(
    alloc: Global,
    host: &mut Recorded<H>,
    runner: &Runner<'m, 'src>,
    stack: &mut Stack<'m, 'src>,
    done: &mut Done,
    call: Call,
    entered: &Entered<'m, 'src>,
) -> Result<(), RunFault<'src>>
    ensures nearer { OnOk result (weight stack.new < weight (Body (row_of call) entered.now.is_dependency (entered_of entered.now) ∷ stack.old)) }
    ensures asks { AsksIn runner.now.contexts.now H.goes host.old host.new }
    // What the stack does from here on, it did with this body on it, for every tally; a failure ends the run.
    ensures goes { (t : runs.Tally) → IfTurned host.new.exhausted result
        (Leads (parts_cut runner.now) (Body (row_of call) entered.now.is_dependency (entered_of entered.now) ∷ stack.old) done.old host.old.entries t stack.new done.new host.new.entries t)
        (λ failure. Rest (parts_cut runner.now) (Body (row_of call) entered.now.is_dependency (entered_of entered.now) ∷ stack.old) done.old host.old.entries t host.new.entries t (Some failure)) }
    ensures begun { (t : runs.Tally) → RestBegins (parts_cut runner.now) (Body (row_of call) entered.now.is_dependency (entered_of entered.now) ∷ stack.old) done.old host.old.entries t host.new.entries }
    ensures said { IfErr result (SaysIn runner.now) }
{
    let subsequents = leave(alloc, host, runner, &call, entered)?;
    if subsequents.calls.is_empty() {
        return Ok(done.join(call)?);
    }
    Ok(push_subsequents(alloc, stack, done, call, subsequents)?)
}

/// Takes back what was done before subsequents, unless they shared it, and the call is done.
fn turn_after(done: &mut Done, call: Call, outer: Option<Box<Done>>) -> Result<(), AllocError>
    ensures { OnOk result (Joins same_call (row_of call) (rest.restored (aside outer) done.old) done.new) }
{
    restore(done, outer);
    done.join(call)
}

fn run_stack<'m, 'src, H: RunHost + Drop>(
    alloc: Global,
    host: &mut Recorded<H>,
    runner: &Runner<'m, 'src>,
    stack: &mut Stack<'m, 'src>,
    done: &mut Done,
    tally: &mut Tally,
) -> Result<(), RunFault<'src>>
    ensures counted { HasCounted tally.old tally.new }
    ensures asks { AsksIn runner.now.contexts.now H.goes host.old host.new }
    ensures goes { IfRan host.new.exhausted result (Rest (parts_cut runner.now) stack.old done.old host.old.entries (tally_of tally.old) host.new.entries (tally_of tally.new)) }
    ensures begun { RestBegins (parts_cut runner.now) stack.old done.old host.old.entries (tally_of tally.old) host.new.entries }
    ensures said { IfErr result (SaysIn runner.now) }
{
    while let Some(frame) = stack.pop() {
        match frame {
            Frame::Calls {
                pending,
                are_dependencies,
            } => {
                turn_calls(
                    alloc,
                    host,
                    runner,
                    stack,
                    &*done,
                    tally,
                    pending,
                    are_dependencies,
                )?;
            }
            Frame::Body { call, entered } => {
                turn_body(alloc, host, runner, stack, done, call, &entered)?;
            }
            Frame::After { call, outer } => {
                turn_after(done, call, outer)?;
            }
        }
    }
    Ok(())
}

/// Runs the calls in order, with nothing done at first: of each that isn't done yet its parameters,
/// its confirmation, what it depends on, its body, and what follows that, with nothing done at
/// first unless its module's settings share what is done with subsequents. The first failure ends the
/// run. The tally counts each call that is met, and each that isn't done yet.
pub fn run_calls<'m, 'src, H: RunHost + Drop>(
    alloc: Global,
    host: &mut Recorded<H>,
    runner: &Runner<'m, 'src>,
    calls: Vec<Call>,
    tally: &mut Tally,
) -> Result<(), RunFault<'src>>
    // No number falls, and no more calls are entered than met.
    ensures counted { HasCounted tally.old tally.new }
    ensures asks { AsksIn runner.now.contexts.now H.goes host.old host.new }
    // Where memory suffices, the record and the tally grow by a run of the calls with nothing done at first.
    ensures goes { IfRan host.new.exhausted result (HasRun (parts runner.now) (rows calls.items) host.old.entries (tally_of tally.old) host.new.entries (tally_of tally.new)) }
    // However it ends, what was recorded is the beginning of what such a run records.
    ensures begun { BeginsRun runner.now (rows calls.items) host.old.entries (tally_of tally.old) host.new.entries }
    // A command's failure is that of a recipe of the run, and as silent as that.
    ensures said { IfErr result (SaysIn runner.now) }
{
    let mut done = Done::with_capacity(alloc, runner.recipes.len())?;
    let mut stack = Stack::new(alloc);
    stack.push(Frame::Calls {
        pending: Pending::new(calls),
        are_dependencies: false,
    })?;
    run_stack(alloc, host, runner, &mut stack, &mut done, tally)
}
