//! The task, with all that it needs.
ghost use Rattle.std.specs.Prelude.{◌≡◌, IfOk, List, option_map};
ghost use Rattle.run_tasks.specs.Prepared.Begun.{BeginsIn, BeginsOver, BeginsPlanned, BeginsTask};
ghost use Rattle.run_tasks.specs.Prepared.Performed.{IsPreparedFor, PerformsIn, PerformsOver, PerformsTask};
ghost use Rattle.run_tasks.specs.Prepared.Planned.{ArePlanned};
ghost use Rattle.run_tasks.specs.Kinds.{AsksFor};
ghost use Rattle.run_tasks.specs.Performed.{IfPerformed};

use crate::order::opening_order;
use crate::planned::plan;
use crate::wanted::wanted;
use crate::{Performed, Task, TaskContext, TaskFault, perform};
use analyze_calls::{Planned, Tally};
use evaluate_context::ModuleView;
use just_host::{Config, Recorded, RunHost};
use just_text::Number;
use modules_compilation::Compilation;
use resolve_analysis::{Analysis, ResolvedRecipe, views};
use std::alloc::{AllocError, Global};
use std::collections::{BTreeMap, BTreeSet};

/// What a task needs of a resolved justfile, beside its modules and recipes.
#[derive(Drop)]
struct Prepared {
    /// The modules' places in the order in which they open.
    opening_order: Vec<usize>,
    /// The variables that lazy modules evaluate; all where none are named.
    wanted: Option<BTreeSet<Number>>,
}

/// What the task needs of the justfile.
fn prepare(
    alloc: Global,
    analysis: &Analysis,
    task: &Task,
    no_dependencies: bool,
) -> Result<Prepared, AllocError>
    ensures { IfOk result (λ prepared. IsPreparedFor analysis.now task.now no_dependencies prepared.opening_order.items prepared.wanted) }
{
    let opening_order = opening_order(alloc, analysis.modules)?;
    let wanted = wanted(
        alloc,
        &analysis.variables,
        analysis.table.recipes.as_slice(),
        analysis.values.settings.as_slice(),
        task,
        no_dependencies,
    )?;
    Ok(Prepared {
        opening_order,
        wanted,
    })
}

/// What the task rests on.
fn context_of<'a>(
    prepared: &'a Prepared,
    config: &'a Config,
    overrides: &'a BTreeMap<Number, String>,
    root: &'a str,
) -> TaskContext<'a>
    ensures config { result.config.now ≡ config.now }
    ensures overrides { result.overrides.now ≡ overrides.now }
    ensures root { result.root.now ≡ root.now }
    ensures order { result.opening_order.now ≡ prepared.now.opening_order.items }
    ensures wanted { option_map (λ numbers. numbers.now) result.wanted ≡ prepared.now.wanted }
{
    TaskContext {
        config,
        overrides,
        root,
        opening_order: prepared.opening_order.as_slice(),
        wanted: prepared.wanted.as_ref(),
    }
}

/// Does the task over these recipes, in the modules of which evaluation sees this.
fn perform_planned<'l, 'src, H: RunHost + Drop>(
    alloc: Global,
    recipes: &mut [Planned<'l, 'src>],
    modules: &[ModuleView<'_, 'src>],
    context: &TaskContext<'_>,
    host: &mut Recorded<H>,
    task: Task,
) -> Result<Performed, TaskFault<'src>>
    ensures asks { AsksFor task.entry context.now.config.now.dry_run H.goes host.old host.new }
    ensures performs { IfPerformed task.entry host.new.exhausted result (PerformsOver context.now modules.now recipes.old task.entry host.old.entries host.new.entries) }
    ensures begun { BeginsOver context.now modules.now recipes.old task.entry host.old.entries host.new.entries }
{
    let mut tally = Tally::new();
    perform(alloc, host, context, modules, &*recipes, task, &mut tally)
}

/// The same over recipes that are not yet planned.
fn perform_over<'src, H: RunHost + Drop>(
    alloc: Global,
    compilation: &Compilation<'src>,
    recipes: &[ResolvedRecipe<'src>],
    modules: &[ModuleView<'_, 'src>],
    context: &TaskContext<'_>,
    host: &mut Recorded<H>,
    task: Task,
) -> Result<Performed, TaskFault<'src>>
    ensures asks { AsksFor task.entry context.now.config.now.dry_run H.goes host.old host.new }
    ensures performs { IfPerformed task.entry host.new.exhausted result (λ end. (planned : List Planned) × ArePlanned compilation.now recipes.now planned × PerformsOver context.now modules.now planned task.entry host.old.entries host.new.entries end) }
    ensures begun { BeginsPlanned compilation.now recipes.now context.now modules.now task.entry host.old.entries host.new.entries }
{
    let mut recipes = plan(alloc, &*compilation, &*recipes)?;
    let recipes = recipes.as_mut_slice();
    perform_planned(alloc, recipes, modules, context, host, task)
}

/// Opens all modules of the justfile, and does the task for which this is prepared.
fn perform_prepared<'src, H: RunHost + Drop>(
    alloc: Global,
    compilation: &Compilation<'src>,
    analysis: &Analysis<'src, '_>,
    context: &TaskContext<'_>,
    host: &mut Recorded<H>,
    task: Task,
) -> Result<Performed, TaskFault<'src>>
    ensures asks { AsksFor task.entry context.now.config.now.dry_run H.goes host.old host.new }
    ensures performs { IfPerformed task.entry host.new.exhausted result (PerformsIn compilation.now analysis.now context.now task.entry host.old.entries host.new.entries) }
    ensures begun { BeginsIn compilation.now analysis.now context.now task.entry host.old.entries host.new.entries }
{
    let values = &analysis.values;
    let views = views(alloc, analysis.modules, &analysis.variables, values)?;
    let recipes = analysis.table.recipes.as_slice();
    perform_over(
        alloc,
        compilation,
        recipes,
        views.as_slice(),
        context,
        host,
        task,
    )
}

/// Opens all modules of the justfile, parents first, and does the task over its recipes. A lazy
/// module evaluates the variables that the called recipes read, and those that are eager or exported.
///
/// # Errors
///
/// As `perform` of `run_tasks`.
pub fn perform_task<'src, H: RunHost + Drop>(
    alloc: Global,
    compilation: &Compilation<'src>,
    analysis: &Analysis<'src, '_>,
    config: &Config,
    root: &str,
    host: &mut Recorded<H>,
    task: Task,
) -> Result<Performed, TaskFault<'src>>
    ensures asks { AsksFor task.entry config.now.dry_run H.goes host.old host.new }
    // Where memory suffices, the task is done over what is known of the justfile.
    ensures performs { IfPerformed task.entry host.new.exhausted result (PerformsTask compilation.now analysis.now config.now root.now task.entry host.old.entries host.new.entries) }
    // However it ends, what was recorded is the beginning of what the task records.
    ensures begun { BeginsTask compilation.now analysis.now config.now root.now task.entry host.old.entries host.new.entries }
{
    let prepared = prepare(alloc, analysis, &task, config.no_dependencies)?;
    let overrides = &analysis.values.overrides;
    let context = context_of(&prepared, &*config, overrides, &*root);
    perform_prepared(alloc, compilation, analysis, &context, host, task)
}
