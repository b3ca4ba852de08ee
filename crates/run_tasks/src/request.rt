//! What the action and the words ask of a resolved justfile.
ghost use Rattle.std.specs.Prelude.{◌≡◌, IfErr, IfOk, map};
ghost use Rattle.analyze_calls.specs.Calls.{row_of, rows};
ghost use Rattle.analyze_words.specs.Broken.{IsRefusedBy};
ghost use Rattle.justfile_analyzer.specs.Targets.{AreInOrder};
ghost use Rattle.meaning_runs.specs.Invokes.{Invoke};
ghost use Rattle.analyze_words.specs.Worded as worded;
ghost use Rattle.just_meaning.specs.Actions.{BreaksCommand, BreaksText};
ghost use Rattle.resolve_recipes.specs.Named.{AllByName};
ghost use Rattle.run_tasks.specs.Requested.Asked.{HandsOver, IsAskedFor, PlansCalls, RunsCalls, TellsText, TellsValues};
ghost use Rattle.run_tasks.specs.Requested.Requests.{IsFor};
ghost use Rattle.run_tasks.specs.Requested.Words as spec;
ghost use Rattle.run_tasks.specs.declared.action.Action.TheVariants.{Command, Evaluate, Plan, Run};

use crate::Task;
use crate::action::Action;
use analyze_calls::Call;
use analyze_words::{Invocation, InvocationParser, WordFault};
use evaluate_context::Settings;
use just_text::{Sequence, Text};
use just_value::Value;
use justfile_analyzer::{EvaluationTarget, evaluation_target, menus};
use modules_compilation::{Compilation, ModuleNode};
use resolve_analysis::{Analysis, ModuleLists, RecipeTable};
use std::alloc::{AllocError, Global};

/// A text of the root module.
#[derive(Clone, Copy)]
pub enum RootText {
    /// The list of recipes.
    List,
    /// The root file as it is formatted, to be written.
    Dump,
    /// The root file as it is formatted, to be answered.
    Format,
}

/// What is asked for.
#[derive(Drop)]
pub enum Request<'w> {
    Task(Task<'w>),
    /// What a run of these calls would hand over.
    Plan(Vec<Call>),
    Text(RootText),
}

/// The words of a group as a value.
fn value(alloc: Global, words: Sequence<Text>) -> Result<Value, AllocError>
    ensures { IfOk result (λ value. value ≡ words) }
{
    let mut value = Value::new(alloc);
    for word in words.into_vec() {
        value.push(word.into_string())?;
    }
    Ok(value)
}

fn call(alloc: Global, invocation: Invocation) -> Result<Call, AllocError>
    ensures { IfOk result (λ call. row_of call ≡ spec.called invocation) }
{
    let Invocation { recipe, groups } = invocation;
    let mut values = Vec::new(alloc);
    for words in groups {
        values.push(value(alloc, words)?)?;
    }
    Ok(Call {
        recipe,
        groups: values,
    })
}

fn calls_of(alloc: Global, invocations: Vec<Invocation>) -> Result<Vec<Call>, AllocError>
    ensures { IfOk result (λ calls. rows calls.items ≡ map spec.called invocations.items) }
{
    let mut calls = Vec::new(alloc);
    for invocation in invocations {
        calls.push(call(alloc, invocation)?)?;
    }
    Ok(calls)
}

/// What the words name.
fn invocations<'src>(
    alloc: Global,
    compilation: &Compilation<'src>,
    table: &RecipeTable<'src>,
    settings: &[Settings],
    words: &[Text],
) -> Result<Vec<Invocation>, WordFault>
    ensures found { IfOk result (λ list. AllByName compilation.now → spec.ByMenus compilation.now table.now settings.now words.now (λ menu. Invoke menu words.now (map worded.row_of list.items))) }
    ensures refused { IfErr result (λ fault. AllByName compilation.now → IsRefusedBy (spec.BreaksAt compilation.now table.now settings.now words.now) fault) }
{
    let menus = menus(alloc, compilation, table, settings, words)?;
    InvocationParser::parse_invocations(alloc, &menus, words)
}

/// The calls that the words ask for; none without words where the root asks for its list of recipes.
fn called<'src>(
    alloc: Global,
    compilation: &Compilation<'src>,
    analysis: &Analysis<'src, '_>,
    words: &[Text],
) -> Result<Vec<Call>, WordFault>
    ensures invoked { IfOk result (λ calls. AllByName compilation.now → spec.InvokesAt compilation.now analysis.now.table.value analysis.now.values.value.settings.items words.now (rows calls.items)) }
    ensures refused { IfErr result (λ fault. AllByName compilation.now → IsRefusedBy (spec.BreaksAt compilation.now analysis.now.table.value analysis.now.values.value.settings.items words.now) fault) }
{
    let settings = analysis.values.settings.as_slice();
    let invocations = invocations(alloc, compilation, &analysis.table, settings, words)?;
    Ok(calls_of(alloc, invocations)?)
}

/// A run of the calls; the list of recipes where there are none.
fn run_request<'w>(calls: Vec<Call>) -> Request<'w>
    ensures is_for { IsFor Run result }
    ensures asked { RunsCalls (rows calls.items) result }
{
    if calls.is_empty() {
        return Request::Text(RootText::List);
    }
    Request::Task(Task::Run(calls))
}

/// What a run of the calls would hand over; the list of recipes where there are none.
fn plan_request<'w>(calls: Vec<Call>) -> Request<'w>
    ensures is_for { IsFor Plan result }
    ensures asked { PlansCalls (rows calls.items) result }
{
    if calls.is_empty() {
        return Request::Text(RootText::List);
    }
    Request::Plan(calls)
}

/// The variables that the words ask for.
fn target<'src>(
    alloc: Global,
    modules: &[ModuleNode<'src>],
    lists: &[ModuleLists<'src, '_>],
    words: &[Text],
) -> Result<EvaluationTarget, WordFault>
    ensures named { IfOk result (λ target. AreInOrder modules.now → spec.values_of modules.now lists.now words.now ≡ Some target) }
    ensures refused { IfErr result (λ fault. AreInOrder modules.now → spec.IsRefusedFor (spec.BreaksValuesAt modules.now lists.now words.now) fault) }
{
    let Some((word, others)) = words.split_first() else {
        return Ok(EvaluationTarget::Module(0));
    };
    if let Some(other) = others.first() {
        return Err(WordFault::extra_word(alloc, other.as_str()));
    }
    match evaluation_target(modules, lists, word.as_str()) {
        Some(target) => Ok(target),
        None => Err(WordFault::unknown_variable(alloc, word.as_str())),
    }
}

fn values_request<'w, 'src>(
    alloc: Global,
    modules: &[ModuleNode<'src>],
    lists: &[ModuleLists<'src, '_>],
    words: &'w [Text],
) -> Result<Request<'w>, WordFault>
    ensures is_for { IfOk result (IsFor Evaluate) }
    ensures asked { IfOk result (λ request. AreInOrder modules.now → TellsValues modules.now lists.now words.now request) }
    ensures refused { IfErr result (λ fault. AreInOrder modules.now → spec.IsRefusedFor (spec.BreaksValuesAt modules.now lists.now words.now) fault) }
{
    let target = target(alloc, modules, lists, words)?;
    Ok(Request::Task(Task::Evaluate(target)))
}

/// The command that the words are.
fn command_request<'w>(words: &'w [Text]) -> Result<Request<'w>, WordFault>
    ensures is_for { IfOk result (IsFor Command) }
    ensures asked { IfOk result (HandsOver words.now) }
    ensures refused { IfErr result (spec.IsRefusedFor (BreaksCommand words.now)) }
{
    if words.is_empty() {
        return Err(WordFault::MissingCommand);
    }
    Ok(Request::Task(Task::Command(words)))
}

/// A text of the root module, where there are no words.
fn text_request<'w>(
    alloc: Global,
    text: RootText,
    words: &'w [Text],
) -> Result<Request<'w>, WordFault>
    ensures asked { IfOk result (TellsText text words.now) }
    ensures refused { IfErr result (spec.IsRefusedFor (BreaksText words.now)) }
{
    match words.first() {
        Some(word) => Err(WordFault::extra_word(alloc, word.as_str())),
        None => Ok(Request::Text(text)),
    }
}

/// What the action and the words ask of the justfile. Refused where the words are no words for it,
/// and where memory runs out.
pub fn request_of<'w, 'src>(
    alloc: Global,
    compilation: &Compilation<'src>,
    analysis: &Analysis<'src, '_>,
    action: Action,
    words: &'w [Text],
) -> Result<Request<'w>, WordFault>
    ensures is_for { IfOk result (IsFor action) }
    ensures meant { analysis.now.modules.now ≡ compilation.now.modules.items → AllByName compilation.now → IfOk result (IsAskedFor compilation.now analysis.now words.now action) }
    ensures refused { analysis.now.modules.now ≡ compilation.now.modules.items → AllByName compilation.now → IfErr result (spec.BreaksPlaced compilation.now analysis.now words.now action) }
{
    match action {
        Action::Run => Ok(run_request(called(alloc, compilation, analysis, words)?)),
        Action::Plan => Ok(plan_request(called(alloc, compilation, analysis, words)?)),
        Action::Evaluate => {
            let lists = analysis.variables.lists.as_slice();
            values_request(alloc, analysis.modules, lists, words)
        }
        Action::Command => command_request(words),
        Action::Dump => text_request(alloc, RootText::Dump, words),
        Action::Format => text_request(alloc, RootText::Format, words),
        Action::List => text_request(alloc, RootText::List, words),
    }
}
