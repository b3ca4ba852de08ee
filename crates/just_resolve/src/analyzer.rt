//! From modules to what is known of them.
ghost use Rattle.std.specs.Prelude.{◌≡◌, ◌≢◌, IfErr, IfOk, OnOk};
ghost use Rattle.std.specs.String.{string_bytes};
ghost use Rattle.resolve_recipes.specs.Named.{AllByName};
ghost use Rattle.just_resolve.specs.Analysis.{IsAnalysis, IsKnown, IsRefused, IsRefusedWith};
ghost use Rattle.just_resolve.specs.Rules.{BreaksNone, InEachWorld, IsNamed};
ghost use Rattle.just_resolve.specs.Table.{IsTable, IsTableRefused};
ghost use Rattle.just_resolve.specs.declared.error.Error.TheVariants.{OutOfMemory};

use crate::error::Error;
use crate::known_values::known_values;
use crate::module_variables::module_variables;
use crate::overrides::resolve_overrides;
use crate::recipe_table::recipe_table;
use just_host::Config;
use just_text::Number;
use just_value::Override;
use modules_compilation::Compilation;
use resolve_analysis::{Analysis, KnownValues, ModuleVariables};
use std::alloc::Global;
use std::collections::BTreeMap;

/// What is known of the modules, once their recipes are resolved too.
fn with_recipes<'a, 'src>(
    alloc: Global,
    compilation: &'a Compilation<'src>,
    variables: ModuleVariables<'src, 'a>,
    values: Box<KnownValues>,
) -> Result<Analysis<'src, 'a>, Error<'src>>
    ensures modules { IfOk result (λ analysis. analysis.modules.now ≡ compilation.now.modules.items) }
    ensures variables { IfOk result (λ analysis. analysis.variables ≡ variables.entry) }
    ensures values { IfOk result (λ analysis. analysis.values ≡ values) }
    ensures table { IfOk result (λ analysis. AllByName compilation.now → IsTable compilation.now variables.entry.reads.items analysis.table.value) }
    ensures refused { IfErr result (λ error. error ≢ OutOfMemory → AllByName compilation.now → IsTableRefused compilation.now variables.entry.reads.items error) }
{
    let table = recipe_table(alloc, compilation, variables.reads.as_slice())?;
    Ok(Analysis {
        modules: compilation.modules.as_slice(),
        variables,
        values,
        table,
    })
}

/// What is known of the modules, where these texts stand for variables. Keys of files are taken from
/// the folder `base`.
fn analyzed<'a, 'src>(
    alloc: Global,
    compilation: &'a Compilation<'src>,
    base: &str,
    overrides: BTreeMap<Number, String>,
) -> Result<Analysis<'src, 'a>, Error<'src>>
    ensures modules { IfOk result (λ analysis. analysis.modules.now ≡ compilation.now.modules.items) }
    ensures given { IfOk result (λ analysis. analysis.values.value.overrides ≡ overrides) }
    ensures known { IfOk result (λ analysis. IsKnown compilation.now overrides base.now analysis.variables analysis.values.value) }
    ensures table { IfOk result (λ analysis. AllByName compilation.now → IsTable compilation.now analysis.variables.reads.items analysis.table.value) }
    ensures refused { IfErr result (λ error. error ≢ OutOfMemory → AllByName compilation.now → IsRefusedWith compilation.now overrides error) }
{
    let variables = module_variables(alloc, compilation, &overrides)?;
    let values = known_values(
        alloc,
        compilation,
        base,
        variables.lists.as_slice(),
        variables.reads.as_slice(),
        variables.orders.as_slice(),
        overrides,
    )?;
    with_recipes(alloc, compilation, variables, values)
}

/// What is known of the modules, where words give these values for variables.
fn analyze_words<'a, 'src>(
    alloc: Global,
    compilation: &'a Compilation<'src>,
    base: &str,
    overrides: &[Override],
) -> Result<Analysis<'src, 'a>, Error<'src>>
    ensures analysis { IfOk result (λ analysis. AllByName compilation.now → IsAnalysis compilation.now base.now overrides.now analysis) }
    ensures refused { IfErr result (λ error. error ≢ OutOfMemory → AllByName compilation.now → IsRefused compilation.now overrides.now error) }
{
    let overrides = resolve_overrides(alloc, compilation, overrides)?;
    analyzed(alloc, compilation, base, overrides)
}

/// Resolves justfiles.
#[derive(Clone, Copy, Debug)]
pub struct Analyzer;

impl Analyzer {
    /// What is known of the modules, whose variables have their numbers; the words give these values
    /// for variables, of which the last for one variable counts.
    ///
    /// Refused where a value is given for no variable; where an expression reads a name that stands
    /// for nothing, or calls no function or one with another number of arguments; where variables
    /// read each other in a cycle; where a setting is no constant or has no value; where a
    /// dependency names no recipe, or one that takes another number of values, also one of a recipe
    /// that is disabled; where a dependency or an alias names a module; where recipes depend on each
    /// other in a cycle; and where memory runs out. Of recipes and variables those that are kept count.
    ///
    /// So in each world that the compilation stands for: where the modules are resolved no rule on
    /// names is broken, the one on constants among them, else the refusal names one that is, unless
    /// memory runs out.
    pub fn analyze<'a, 'src>(
        alloc: Global,
        compilation: &'a Compilation<'src>,
        config: &Config,
        overrides: &[Override],
    ) -> Result<Analysis<'src, 'a>, Error<'src>>
        ensures analysis { IfOk result (λ analysis. AllByName compilation.now → IsAnalysis compilation.now (string_bytes config.now.base) overrides.now analysis) }
        ensures refused { IfErr result (λ error. error ≢ OutOfMemory → AllByName compilation.now → IsRefused compilation.now overrides.now error) }
        ensures clear { OnOk result (InEachWorld compilation.now overrides.now BreaksNone) }
        ensures broken { IfErr result (λ error. InEachWorld compilation.now overrides.now (λ w o. IsNamed w o error)) }
    {
        analyze_words(alloc, compilation, config.base.as_str(), overrides)
    }
}
