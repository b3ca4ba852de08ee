//! What evaluation sees of modules is known.
ghost use Rattle.laws_runs.specs.Views.Known.{AllVariablesAreKnown, VariablesAreKnown, ViewsAreSeen};
ghost use Rattle.laws_runs.specs.Views.Opened.{OpenedAreBound};
ghost use Rattle.laws_runs.specs.Views.Read.{EvaluatedAreClosed, RunningAreRead};
ghost use Rattle.laws_runs.specs.Views.Recipes.{ParametersAreKnown, RecipesAreKnown, TableRecipesAreKnown};

use std::collections::BTreeMap;

/// A view of a justfile's analysis has what its module keeps, in the order of its variables.
pub fn views_are_seen()
    ensures { ViewsAreSeen }
{}

/// What the variables of a module name is known in their order, where what a variable reads is read with it.
pub fn variables_are_known(overrides: &BTreeMap<u64, String>)
    ensures { VariablesAreKnown overrides.now }
{}

/// What they name is known where all are read.
pub fn all_variables_are_known(overrides: &BTreeMap<u64, String>)
    ensures { AllVariablesAreKnown overrides.now }
{}

/// What a variable reads is evaluated by a run that evaluates the variable.
pub fn evaluated_are_closed(overrides: &BTreeMap<u64, String>)
    ensures { EvaluatedAreClosed overrides.now }
{}

/// What a recipe reads is evaluated by a run of the recipe.
pub fn running_are_read(overrides: &BTreeMap<u64, String>)
    ensures { RunningAreRead overrides.now }
{}

/// What the expressions of a recipe name is known: its parameters, variables of its module, and constants.
pub fn recipes_are_known(overrides: &BTreeMap<u64, String>)
    ensures { RecipesAreKnown overrides.now }
{}

/// So it is of each recipe in the table of a justfile's recipes.
pub fn table_recipes_are_known(overrides: &BTreeMap<u64, String>)
    ensures { TableRecipesAreKnown overrides.now }
{}

/// What the parameters and `env` attributes of such a recipe name is known where they are evaluated.
pub fn parameters_are_known()
    ensures { ParametersAreKnown }
{}

/// Once a module's variables are opened, the constants are bound, and the variables that are read.
pub fn opened_are_bound(overrides: &BTreeMap<u64, String>)
    ensures { OpenedAreBound overrides.now }
{}
