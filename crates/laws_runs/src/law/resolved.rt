//! Modules, recipes, variables and functions by their paths and names.
ghost use Rattle.laws_runs.specs.Resolved.Modules.{ModulesStand, PathsAreOwn, PathsLead, PlacesHavePaths, TreesAreSorted, TreesHaveModules};
ghost use Rattle.laws_runs.specs.Resolved.Kept.{AliasesStand, DefaultsStand, RecipesStand};
ghost use Rattle.laws_runs.specs.Resolved.Assigned.{FunctionsStand, NamesStand, OverridesStand, VariablesStand};

/// Names lead to a place exactly where it has the path.
pub fn paths_lead()
    ensures { PathsLead }
{}

/// The path to a place is the one that its own name and those of the modules above it make.
pub fn paths_are_own()
    ensures { PathsAreOwn }
{}

/// Each place has such a path.
pub fn places_have_paths()
    ensures { PlacesHavePaths }
{}

/// A module of a world is the node at its path.
pub fn modules_stand()
    ensures { ModulesStand }
{}

/// The tree has just the paths of modules.
pub fn trees_have_modules()
    ensures { TreesHaveModules }
{}

/// Submodules stand in it in byte order of their names.
pub fn trees_are_sorted()
    ensures { TreesAreSorted }
{}

/// A recipe has just the row that it has in the world.
pub fn recipes_stand()
    ensures { RecipesStand }
{}

/// An alias stands for just the recipe for which it stands in the world.
pub fn aliases_stand()
    ensures { AliasesStand }
{}

/// The recipe that runs in a module where none is named is that of the world.
pub fn defaults_stand()
    ensures { DefaultsStand }
{}

/// The names of a module's variables are those of the world.
pub fn names_stand()
    ensures { NamesStand }
{}

/// A variable has just the row that it has in the world.
pub fn variables_stand()
    ensures { VariablesStand }
{}

/// The text given last for a variable is that of the last override that names it.
pub fn overrides_stand()
    ensures { OverridesStand }
{}

/// The functions of a module are those of the world.
pub fn functions_stand()
    ensures { FunctionsStand }
{}
