//! All modules opened, and what is done in them.
ghost use Rattle.std.specs.Prelude.{◌≡◌, IfOk, slice_get};
ghost use Rattle.std.specs.String.{string_bytes};
ghost use Rattle.std.specs.List.{All};
ghost use Rattle.analyze_calls.specs.Asked.{AsksIn};
ghost use Rattle.run_tasks.specs.Kinds.{AsksFor, AsksOver, AsksRoot};
ghost use Rattle.std.specs.Prelude.{[], ℕ, List};
ghost use Rattle.just_value.specs.Constants.{constant_rows};
ghost use Rattle.just_value.specs.Frames.{BindsRows, ByNumber};
ghost use Rattle.analyze_calls.specs.Calls.{rows};
ghost use Rattle.analyze_calls.specs.Opening.{opened_rows};
ghost use Rattle.analyze_calls.specs.Runs.Tallies.{tally_of};
ghost use Rattle.run_tasks.specs.Begun.{Begins, BeginsIn, BeginsOpened, RunBegins};
ghost use Rattle.run_tasks.specs.Opened.{AreContexts, ArePositions, IsOpeningOf};
ghost use Rattle.run_tasks.specs.Performed.{Fits, IfEnds, IfPerformed, IfRunEnd, Performs, PerformsIn, PerformsOpened, RunsIn};
ghost use Rattle.run_tasks.specs.declared.task.Task.TheVariants as tasks;
ghost use Rattle.run_tasks.specs.Tasks as spec;
ghost use Rattle.run_tasks.specs.Tasks.{CommandsIn, Does, IsEvaluated};

use crate::command::run_command;
use crate::fault::TaskFault;
use crate::task::{Performed, Task, TaskContext};
use analyze_calls::{Call, Opened, Opening, Planned, Runner, Tally, open_modules, run_calls};
use evaluate_context::{ExecutionContext, ModuleView};
use just_host::{Recorded, RunHost};
use just_text::{Number, Text};
use just_value::Scope;
use justfile_analyzer::{EvaluationTarget, variables_text};
use std::alloc::{AllocError, Global};
use std::collections::BTreeMap;

/// The place of each module among those that are open.
fn positions(alloc: Global, opened: &[Opened], count: usize) -> Result<Vec<usize>, AllocError>
    ensures { IfOk result (λ positions. ArePositions (opened_rows opened.now) count positions.items) }
{
    let mut positions = vec![in alloc; opened.len(); count]?;
    for place in 0..opened.len() {
        let module = opened[place].module;
        if module < positions.len() {
            positions[module] = place;
        }
    }
    Ok(positions)
}

/// What each module's recipes rest on, by the modules' places.
fn contexts<'x, 'src>(
    alloc: Global,
    context: &TaskContext<'x>,
    modules: &'x [ModuleView<'x, 'src>],
    opened: &'x [Opened<'x, 'src>],
) -> Result<Vec<ExecutionContext<'x, 'src>>, AllocError>
    ensures configured { IfOk result (λ contexts. All (λ here. here.config.now ≡ context.now.config.now) contexts.items) }
    ensures contexts { IfOk result (λ contexts. AreContexts context.now (opened_rows opened.now) 0 modules.now contexts.items) }
{
    let positions = positions(alloc, opened, modules.len())?;
    let mut contexts = Vec::new(alloc);
    for module in 0..modules.len().min(positions.len()) {
        let position = positions[module];
        if position >= opened.len() {
            continue;
        }
        let one = &opened[position];
        contexts.push(ExecutionContext {
            config: context.config,
            dotenv: &one.dotenv,
            module: &modules[module],
            overrides: context.overrides,
            scope: &one.scope,
            root: context.root,
        })?;
    }
    Ok(contexts)
}

/// Runs the calls.
fn run<'a, 'src, H: RunHost + Drop>(
    alloc: Global,
    host: &mut Recorded<H>,
    recipes: &'a [Planned<'a, 'src>],
    contexts: &'a [ExecutionContext<'a, 'src>],
    calls: Vec<Call>,
    tally: &mut Tally,
) -> Result<Performed, TaskFault<'src>>
    ensures asks { AsksIn contexts.now H.goes host.old host.new }
    ensures fits { Fits (tasks.Run calls) result }
    ensures performs { IfEnds host.new.exhausted result (λ end. IfRunEnd end (RunsIn recipes.now contexts.now (rows calls.items) host.old.entries (tally_of tally.old) host.new.entries (tally_of tally.new))) }
    ensures begun { RunBegins recipes.now contexts.now (rows calls.items) host.old.entries (tally_of tally.old) host.new.entries }
{
    let runner = Runner { recipes, contexts };
    run_calls(alloc, host, &runner, calls, tally)?;
    Ok(Performed::Ran)
}

/// The text of the module's variables.
fn module_text(
    alloc: Global,
    contexts: &[ExecutionContext],
    module: usize,
) -> Result<String, AllocError>
    ensures { IfOk result (λ text. string_bytes text ≡ spec.module_text (slice_get contexts.now «module»)) }
{
    match contexts.get(module) {
        Some(context) => variables_text(alloc, context.module.assignments, context.scope),
        None => Ok(String::new(alloc)),
    }
}

/// The text of the value of the module's variable.
fn value_text(
    alloc: Global,
    contexts: &[ExecutionContext],
    module: usize,
    number: Number,
) -> Result<String, AllocError>
    ensures { IfOk result (λ text. string_bytes text ≡ spec.value_text number (slice_get contexts.now «module»)) }
{
    let Some(context) = contexts.get(module) else {
        return Ok(String::new(alloc));
    };
    match context.scope.value(number) {
        Some(value) => value.join(alloc),
        None => Ok(String::new(alloc)),
    }
}

/// The text of what is evaluated.
fn evaluated(
    alloc: Global,
    contexts: &[ExecutionContext],
    target: EvaluationTarget,
) -> Result<String, AllocError>
    ensures { IfOk result (λ text. string_bytes text ≡ spec.values_text contexts.now target) }
{
    match target {
        EvaluationTarget::Module(module) => module_text(alloc, contexts, module),
        EvaluationTarget::Variable { module, number } => {
            value_text(alloc, contexts, module, number)
        }
    }
}

/// Answers the text of what is evaluated.
fn evaluate<'src>(
    alloc: Global,
    contexts: &[ExecutionContext<'_, 'src>],
    target: EvaluationTarget,
) -> Result<Performed, TaskFault<'src>>
    ensures { IsEvaluated (spec.values_text contexts.now target) result }
{
    Ok(Performed::Evaluated(evaluated(alloc, contexts, target)?))
}

/// Hands the words over as one command in the root module.
fn command<'src, H: RunHost + Drop>(
    alloc: Global,
    host: &mut Recorded<H>,
    contexts: &[ExecutionContext<'_, 'src>],
    words: &[Text],
) -> Result<Performed, TaskFault<'src>>
    ensures commands { CommandsIn H.goes (slice_get contexts.now 0) words.now host.old result host.new }
    ensures asks { AsksRoot (slice_get contexts.now 0) H.goes host.old host.new }
{
    let Some(root) = contexts.first() else {
        return Ok(Performed::Ran);
    };
    run_command(alloc, host, root, words)
}

/// Does the task in the modules' contexts.
fn perform_in<'a, 'src, H: RunHost + Drop>(
    alloc: Global,
    host: &mut Recorded<H>,
    recipes: &'a [Planned<'a, 'src>],
    contexts: &'a [ExecutionContext<'a, 'src>],
    task: Task,
    tally: &mut Tally,
) -> Result<Performed, TaskFault<'src>>
    ensures does { Does H.goes contexts.now task.entry host.old result host.new }
    ensures asks { AsksOver contexts.now task.entry H.goes host.old host.new }
    ensures performs { IfPerformed task.entry host.new.exhausted result (PerformsIn recipes.now contexts.now task.entry host.old.entries (tally_of tally.old) host.new.entries (tally_of tally.new)) }
    ensures begun { BeginsIn recipes.now contexts.now task.entry host.old.entries (tally_of tally.old) host.new.entries }
{
    match task {
        Task::Run(calls) => run(alloc, host, recipes, contexts, calls, tally),
        Task::Evaluate(target) => evaluate(alloc, contexts, target),
        Task::Command(words) => command(alloc, host, contexts, words),
    }
}

/// Does the task in the modules that are open.
fn perform_opened<'a, 'src, H: RunHost + Drop>(
    alloc: Global,
    host: &mut Recorded<H>,
    context: &TaskContext<'a>,
    modules: &'a [ModuleView<'a, 'src>],
    opened: &'a [Opened<'a, 'src>],
    recipes: &'a [Planned<'a, 'src>],
    task: Task,
    tally: &mut Tally,
) -> Result<Performed, TaskFault<'src>>
    ensures asks { AsksFor task.entry context.now.config.now.dry_run H.goes host.old host.new }
    ensures performs { IfPerformed task.entry host.new.exhausted result (PerformsOpened context.now modules.now recipes.now task.entry (opened_rows opened.now) host.old.entries (tally_of tally.old) host.new.entries (tally_of tally.new)) }
    ensures begun { BeginsOpened context.now modules.now recipes.now task.entry (opened_rows opened.now) host.old.entries (tally_of tally.old) host.new.entries }
{
    let contexts = contexts(alloc, context, modules, opened)?;
    perform_in(alloc, host, recipes, contexts.as_slice(), task, tally)
}

/// What all modules open with.
fn opening_of<'a, 'src>(
    context: &TaskContext<'a>,
    constants: &'a Scope<'a, 'src>,
) -> Opening<'a, 'src>
    ensures { BindsRows constant_rows constants.now.own → constants.now.outer ≡ [] → ByNumber constants.now.own → IsOpeningOf context.now result }
{
    Opening {
        config: context.config,
        overrides: context.overrides,
        constants,
        root: context.root,
        wanted: context.wanted,
    }
}

/// Opens all modules inside the constants' frame, and does the task.
fn perform_inside<'src, H: RunHost + Drop>(
    alloc: Global,
    host: &mut Recorded<H>,
    context: &TaskContext<'_>,
    modules: &[ModuleView<'_, 'src>],
    recipes: &[Planned<'_, 'src>],
    constants: &Scope<'_, 'src>,
    task: Task,
    tally: &mut Tally,
) -> Result<Performed, TaskFault<'src>>
    ensures asks { AsksFor task.entry context.now.config.now.dry_run H.goes host.old host.new }
    ensures performs { BindsRows constant_rows constants.now.own → constants.now.outer ≡ [] → ByNumber constants.now.own → IfPerformed task.entry host.new.exhausted result (Performs context.now modules.now recipes.now task.entry host.old.entries (tally_of tally.old) host.new.entries (tally_of tally.new)) }
    ensures begun { BindsRows constant_rows constants.now.own → constants.now.outer ≡ [] → ByNumber constants.now.own → Begins context.now modules.now recipes.now task.entry host.old.entries (tally_of tally.old) host.new.entries }
{
    let opening = opening_of(&*context, &*constants);
    let opened = open_modules(alloc, host, &opening, modules, context.opening_order)?;
    perform_opened(
        alloc,
        host,
        context,
        modules,
        opened.as_slice(),
        recipes,
        task,
        tally,
    )
}

/// Opens these modules, of which the root is the first, in the context's order, and does the task
/// over the recipes, each of which stands after those that it depends on. The first fault ends it,
/// and nothing else is asked after it. The tally counts the calls that a run meets and enters.
///
/// # Errors
///
/// `Opening` where a module can't open, `Run` where a recipe fails or memory runs out, `Command` where
/// the command that the words are fails.
pub fn perform<'src, H: RunHost + Drop>(
    alloc: Global,
    host: &mut Recorded<H>,
    context: &TaskContext<'_>,
    modules: &[ModuleView<'_, 'src>],
    recipes: &[Planned<'_, 'src>],
    task: Task,
    tally: &mut Tally,
) -> Result<Performed, TaskFault<'src>>
    // The record has grown by just what was asked, and the host went along by it.
    ensures asks { AsksFor task.entry context.now.config.now.dry_run H.goes host.old host.new }
    // Where memory suffices, the modules open, and then the task is done over what is open: calls run up to the first failure, values are told, or a command is handed over.
    ensures performs { IfPerformed task.entry host.new.exhausted result (Performs context.now modules.now recipes.now task.entry host.old.entries (tally_of tally.old) host.new.entries (tally_of tally.new)) }
    // However it ends, what was recorded is the beginning of what the task records.
    ensures begun { Begins context.now modules.now recipes.now task.entry host.old.entries (tally_of tally.old) host.new.entries }
{
    let constants = Scope::root(alloc)?;
    perform_inside(
        alloc, host, context, modules, recipes, &constants, task, tally,
    )
}
