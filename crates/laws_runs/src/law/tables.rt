//! Recipes stand in their table, and after what they depend on.
ghost use Rattle.laws_runs.specs.Tables.Tables.{DependenciesStandBefore, KeptRecipesStand};

/// In the table of a justfile's recipes each recipe stands after all that it depends on.
pub fn dependencies_stand_before()
    ensures { DependenciesStandBefore }
{}

/// Each recipe that a module keeps stands in the table.
pub fn kept_recipes_stand()
    ensures { KeptRecipesStand }
{}
