//! A recipe's parameters, its confirmation, and the calls around its body.
ghost use Rattle.std.specs.Prelude.{◌≡◌, ℕ, IfErr, IfOk};
ghost use Rattle.just_host.specs.Kinds.{AsksQuestions, AsksWork};
ghost use Rattle.just_text.specs.Tokens.{lexeme};
ghost use Rattle.tree_attributes.specs.declared.attribute.AttributeKind.TheVariants.{Confirm};
ghost use Rattle.evaluate_context.specs.Refusals.{seen_as};
ghost use Rattle.evaluate_expressions.specs.Situations.{reading_at, stage_at};
ghost use Rattle.evaluate_variables.specs.Given.{stage_with};
ghost use Rattle.justfile_evaluator.specs.Ended.{IsTold, ended};
ghost use Rattle.justfile_evaluator.specs.Sites.{attribute_in, is_silent};
ghost use Rattle.laws_evaluation.specs.Bodies.Performing.{Performs};
ghost use Rattle.meaning_dialogues.specs.Dialogue.{Evaluates};
ghost use Rattle.meaning_evaluation.specs.Parameters.Bindings.{run_reading};
ghost use Rattle.analyze_calls.specs.Around.{Heads, HeadsBegin, IsOwnSite, PerformsBody, SaysOwn, Tails, TailsBegin, asked_unless, calls_unless, head_task, own_reading, own_stage};
ghost use Rattle.analyze_calls.specs.Asked.{AsksUser};
ghost use Rattle.analyze_calls.specs.Binding.{Binds, may_have};
ghost use Rattle.analyze_calls.specs.Blocks as blocks;
ghost use Rattle.analyze_calls.specs.Calls.{rows};
ghost use Rattle.analyze_calls.specs.Confirming.{confirming, prompt_in};
ghost use Rattle.analyze_calls.specs.Entered.{bound_row, entered_of, inside};
ghost use Rattle.analyze_calls.specs.Ran.{IfGiven, ended_as};

use crate::block::block;
use crate::call::Call;
use crate::confirm::confirm;
use crate::plan::{Placed, Runner};
use evaluate_context::Error;
use just_host::{Config, Pair, Recorded, RunHost};
use just_text::Name;
use just_value::{Scope, Value};
use justfile_evaluator::{
    BoundParameters, Evaluator, ExecutionContext, Manner, RunFault, Site, evaluate_parameters,
    run_body,
};
use std::alloc::Global;
use tree_items::{Parameter, Recipe, UnresolvedDependency};

/// What a recipe was entered with.
#[derive(Drop)]
pub struct Entered<'m, 'src> {
    /// The parameters' frame, inside the module's.
    pub scope: Scope<'m, 'src>,
    /// What its `env` attributes give to commands.
    pub env: Vec<Pair>,
    /// Its parameters' values as words.
    pub positional: Vec<String>,
    /// Whether it runs as a dependency.
    pub is_dependency: bool,
}

/// Whether the parameter may stand for so many values.
fn may_count(parameter: &Parameter, count: usize) -> bool
    ensures { result ≡ may_have parameter.now count }
{
    let least = match parameter.min {
        Some(least) => usize::from(least) <= count,
        None => true,
    };
    let most = match parameter.max {
        Some(most) => count <= usize::from(most),
        None => true,
    };
    least && most
}

/// Binds the parameters in the frame.
fn bind<'src, H: RunHost + Drop>(
    alloc: Global,
    host: &mut Recorded<H>,
    placed: &Placed<'_, 'src>,
    groups: &[Value],
    is_dependency: bool,
    scope: &mut Scope<'_, 'src>,
) -> Result<BoundParameters, RunFault<'src>>
    ensures asks { AsksQuestions H.goes host.old host.new }
    ensures binds { scope.old ≡ inside placed.now.context.now.scope.now → Binds placed.now.planned.now placed.now.context.now is_dependency groups.now host.old.entries host.new.entries (ended_as (bound_row scope.new) result) }
    ensures told { IfErr result IsTold }
{
    let check = |parameter: &Parameter, count: usize| may_count(parameter, count);
    Ok(evaluate_parameters(
        alloc,
        host,
        groups,
        placed.context,
        is_dependency,
        placed.planned.recipe,
        scope,
        &check,
    )?)
}

/// What the recipe is entered with: its parameters bound by their groups in a frame inside its
/// module's. Refused as evaluation of an `env` attribute, a default or an option's value is, and
/// where a parameter gets fewer values than its `min` or more than its `max`.
pub fn enter_recipe<'m, 'src, H: RunHost + Drop>(
    alloc: Global,
    host: &mut Recorded<H>,
    placed: &Placed<'m, 'src>,
    groups: &[Value],
    is_dependency: bool,
) -> Result<Entered<'m, 'src>, RunFault<'src>>
    ensures asks { AsksQuestions H.goes host.old host.new }
    ensures flag { IfOk result (λ e. e.is_dependency ≡ is_dependency) }
    ensures binds { Binds placed.now.planned.now placed.now.context.now is_dependency groups.now host.old.entries host.new.entries (ended_as entered_of result) }
    ensures told { IfErr result IsTold }
{
    let mut scope = placed.context.scope.child(alloc)?;
    match bind(alloc, host, placed, groups, is_dependency, &mut scope) {
        Ok(BoundParameters { positional, env }) => Ok(Entered {
            scope,
            env,
            positional,
            is_dependency,
        }),
        Err(fault) => {
            drop(scope);
            Err(fault)
        }
    }
}

/// Evaluates in the body of a recipe, which has this frame.
fn evaluator<'a, 'src>(
    context: &'a ExecutionContext<'a, 'src>,
    recipe: Name<'src>,
    entered: &'a Entered<'a, 'src>,
    scope: &'a Scope<'a, 'src>,
) -> Evaluator<'a, 'src>
    ensures stage { stage_at result ≡ stage_with context.entry.now entered.entry.now.is_dependency recipe.entry entered.entry.now.env.items scope.entry.now }
    ensures reading { reading_at result ≡ run_reading scope.entry.now context.entry.now.scope.now }
{
    let env = entered.env.as_slice();
    Evaluator::new(context, env, entered.is_dependency, Some(recipe), scope)
}

/// Where the body of the recipe runs, which has this frame.
fn site<'a, 'src>(
    placed: &'a Placed<'a, 'src>,
    entered: &'a Entered<'a, 'src>,
    scope: &'a Scope<'a, 'src>,
) -> Site<'a, 'src>
    ensures context { result.context.now ≡ placed.entry.now.context.now }
    ensures name { result.name ≡ placed.entry.now.planned.now.recipe.now.name }
    ensures silent { result.manner.is_silent ≡ is_silent placed.entry.now.context.now.module.now.settings.now placed.entry.now.planned.now.recipe.now.attributes }
    ensures own { scope.entry.now ≡ inside entered.entry.now.scope → IsOwnSite placed.entry.now.planned.now placed.entry.now.context.now entered.entry.now.is_dependency (entered_of entered.entry.now) result }
{
    let recipe = placed.planned.recipe;
    let context = placed.context;
    let attributes = &recipe.attributes;
    let body = recipe.body.as_slice();
    Site {
        context,
        env: entered.env.as_slice(),
        positional: entered.positional.as_slice(),
        scope,
        attributes,
        name: recipe.name,
        manner: Manner::of(context.module.settings, attributes, recipe.quiet, body),
    }
}

/// Confirms the recipe, unless all are.
fn confirm_unless<'src, H: RunHost + Drop>(
    alloc: Global,
    host: &mut Recorded<H>,
    evaluator: &Evaluator<'_, 'src>,
    config: &Config,
    recipe: &Recipe<'src, UnresolvedDependency<'src>>,
) -> Result<(), RunFault<'src>>
    ensures asks { AsksUser H.goes host.old host.new }
    ensures performs { Performs (reading_at evaluator.now) (asked_unless config.now.yes (confirming (stage_at evaluator.now) (lexeme recipe.now.name.token) (prompt_in (attribute_in Confirm recipe.now.attributes)))) host.old host.new (ended result) }
    ensures told { IfErr result IsTold }
{
    if config.yes {
        return Ok(());
    }
    confirm(alloc, host, evaluator, recipe)
}

/// The calls of the dependencies, none where dependencies are left out.
fn block_unless<'src, H: RunHost + Drop>(
    alloc: Global,
    host: &mut Recorded<H>,
    evaluator: &Evaluator<'_, 'src>,
    runner: &Runner<'_, 'src>,
    config: &Config,
    dependencies: &[UnresolvedDependency<'src>],
    places: &[usize],
) -> Result<Vec<Call>, Error<'src>>
    ensures asks { AsksQuestions H.goes host.old host.new }
    ensures evaluates { Evaluates (reading_at evaluator.now) (calls_unless config.now.no_dependencies (blocks.block runner.now (stage_at evaluator.now) dependencies.now places.now)) host.old.entries host.new.entries (seen_as (λ calls. rows calls.items) result) }
{
    if config.no_dependencies {
        return Ok(Vec::new(alloc));
    }
    block(alloc, host, evaluator, runner, dependencies, places)
}

/// Confirms the recipe in the body's frame, unless all are, and gives the calls before its body,
/// unless dependencies are left out.
fn confirmed<'src, H: RunHost + Drop>(
    alloc: Global,
    host: &mut Recorded<H>,
    runner: &Runner<'_, 'src>,
    placed: &Placed<'_, 'src>,
    entered: &Entered<'_, 'src>,
    scope: &Scope<'_, 'src>,
) -> Result<Vec<Call>, RunFault<'src>>
    ensures asks { AsksUser H.goes host.old host.new }
    ensures performs { scope.now ≡ inside entered.now.scope → Performs (own_reading placed.now.planned.now placed.now.context.now entered.now.is_dependency (entered_of entered.now)) (head_task runner.now placed.now.planned.now placed.now.context.now.config.now (own_stage placed.now.planned.now placed.now.context.now entered.now.is_dependency (entered_of entered.now))) host.old host.new (ended_as (λ calls. rows calls.items) result) }
    ensures told { IfErr result IsTold }
{
    let planned = placed.planned;
    let recipe = planned.recipe;
    let config = placed.context.config;
    let evaluator = evaluator(placed.context, recipe.name, &*entered, &*scope);
    confirm_unless(alloc, host, &evaluator, config, recipe)?;
    let priors = recipe.priors.as_slice();
    Ok(block_unless(
        alloc,
        host,
        &evaluator,
        runner,
        config,
        priors,
        planned.priors,
    )?)
}

/// Runs the recipe's body.
fn run<'src, H: RunHost + Drop>(
    alloc: Global,
    host: &mut Recorded<H>,
    evaluator: &Evaluator<'_, 'src>,
    placed: &Placed<'_, 'src>,
    entered: &Entered<'_, 'src>,
    scope: &Scope<'_, 'src>,
) -> Result<(), RunFault<'src>>
    ensures asks { AsksWork placed.now.context.now.config.now.dry_run H.goes host.old host.new }
    ensures performs { scope.now ≡ inside entered.now.scope → PerformsBody placed.now.planned.now placed.now.context.now entered.now.is_dependency (entered_of entered.now) evaluator.now host.old host.new (ended result) }
    ensures said { IfErr result (SaysOwn placed.now.planned.now placed.now.context.now) }
{
    let site = site(placed, &*entered, &*scope);
    let body = placed.planned.recipe.body.as_slice();
    run_body(alloc, host, evaluator, &site, body)
}

/// Runs the body in its frame, and gives the calls after it, unless dependencies are left out.
fn done<'src, H: RunHost + Drop>(
    alloc: Global,
    host: &mut Recorded<H>,
    runner: &Runner<'_, 'src>,
    placed: &Placed<'_, 'src>,
    entered: &Entered<'_, 'src>,
    scope: &Scope<'_, 'src>,
) -> Result<Vec<Call>, RunFault<'src>>
    ensures asks { AsksWork placed.now.context.now.config.now.dry_run H.goes host.old host.new }
    ensures tails { scope.now ≡ inside entered.now.scope → IfGiven (λ calls. rows calls.items) host.new.exhausted result (Tails placed.now.planned.now placed.now.context.now entered.now.is_dependency (entered_of entered.now) runner.now host.old.entries host.new.entries) }
    ensures begun { scope.now ≡ inside entered.now.scope → TailsBegin placed.now.planned.now placed.now.context.now entered.now.is_dependency (entered_of entered.now) runner.now host.old.entries host.new.entries }
    ensures said { IfErr result (SaysOwn placed.now.planned.now placed.now.context.now) }
{
    let planned = placed.planned;
    let recipe = planned.recipe;
    let config = placed.context.config;
    let evaluator = evaluator(placed.context, recipe.name, &*entered, &*scope);
    run(alloc, host, &evaluator, placed, entered, scope)?;
    let subsequents = recipe.subsequents.as_slice();
    Ok(block_unless(
        alloc,
        host,
        &evaluator,
        runner,
        config,
        subsequents,
        planned.subsequents,
    )?)
}

/// Confirms the recipe in a frame inside its parameters', unless all are confirmed, and gives the
/// calls before its body, unless dependencies are left out. Refused as `NotConfirmed` where the user
/// doesn't say yes, and as evaluation of the prompt or of an argument is.
pub fn begin<'src, H: RunHost + Drop>(
    alloc: Global,
    host: &mut Recorded<H>,
    runner: &Runner<'_, 'src>,
    placed: &Placed<'_, 'src>,
    entered: &Entered<'_, 'src>,
) -> Result<Vec<Call>, RunFault<'src>>
    ensures asks { AsksUser H.goes host.old host.new }
    ensures heads { IfGiven (λ calls. rows calls.items) host.new.exhausted result (Heads placed.now.planned.now placed.now.context.now entered.now.is_dependency (entered_of entered.now) runner.now host.old.entries host.new.entries) }
    ensures begun { HeadsBegin placed.now.planned.now placed.now.context.now entered.now.is_dependency (entered_of entered.now) runner.now host.old.entries host.new.entries }
    ensures told { IfErr result IsTold }
{
    let scope = entered.scope.child(alloc)?;
    confirmed(alloc, host, runner, placed, entered, &scope)
}

/// Runs the recipe's body in a frame inside its parameters', and gives the calls after it, unless
/// dependencies are left out. Refused as a command of the body fails, and as evaluation of the body
/// or of an argument is.
pub fn end<'src, H: RunHost + Drop>(
    alloc: Global,
    host: &mut Recorded<H>,
    runner: &Runner<'_, 'src>,
    placed: &Placed<'_, 'src>,
    entered: &Entered<'_, 'src>,
) -> Result<Vec<Call>, RunFault<'src>>
    ensures asks { AsksWork placed.now.context.now.config.now.dry_run H.goes host.old host.new }
    ensures tails { IfGiven (λ calls. rows calls.items) host.new.exhausted result (Tails placed.now.planned.now placed.now.context.now entered.now.is_dependency (entered_of entered.now) runner.now host.old.entries host.new.entries) }
    ensures begun { TailsBegin placed.now.planned.now placed.now.context.now entered.now.is_dependency (entered_of entered.now) runner.now host.old.entries host.new.entries }
    ensures said { IfErr result (SaysOwn placed.now.planned.now placed.now.context.now) }
{
    let scope = entered.scope.child(alloc)?;
    done(alloc, host, runner, placed, entered, &scope)
}
