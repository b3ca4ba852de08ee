//! Names, paths of names and aliases.
ghost use Rattle.laws_modules.specs.Names.Names.{RecipesAreKept, SubmodulesAreFound};
ghost use Rattle.laws_modules.specs.Names.Modules.{ModulesAreNodes, NoneIsTwice, ReachedAreSaid};
ghost use Rattle.laws_modules.specs.Names.Targets.{LeadingAliasesAreKnown, LedRecipesStand, ModuleAliasesAreRefused, OtherAliasesAreUnknown, StandingRecipesAreLed, TargetsAreExact, TargetsAreMeant};

/// The recipe of a name that is found in a module is that which the module keeps.
pub fn recipes_are_kept()
    ensures { RecipesAreKept }
{}

/// The submodule of a name that is found in a module is that which the world has.
pub fn submodules_are_found()
    ensures { SubmodulesAreFound }
{}

/// A module at a path is the node of the path, and has its file.
pub fn modules_are_nodes()
    ensures { ModulesAreNodes }
{}

/// Where no node has two definitions of a kind and name, no module has.
pub fn none_is_twice()
    ensures { NoneIsTwice }
{}

/// Each file that is reached says something.
pub fn reached_are_said()
    ensures { ReachedAreSaid }
{}

/// A path of names leads in the world to what it leads to in the compilation.
pub fn targets_are_meant()
    ensures { TargetsAreMeant }
{}

/// It leads to a recipe, to a module or to nothing exactly where it does so in the world.
pub fn targets_are_exact()
    ensures { TargetsAreExact }
{}

/// The recipe that a path leads to in the world is that to which it leads in the compilation.
pub fn led_recipes_stand()
    ensures { LedRecipesStand }
{}

/// The recipe to which a path leads in the compilation is that to which it leads in the world.
pub fn standing_recipes_are_led()
    ensures { StandingRecipesAreLed }
{}

/// Where all aliases lead somewhere, no alias has an unknown target.
pub fn leading_aliases_are_known()
    ensures { LeadingAliasesAreKnown }
{}

/// An alias that leads nowhere has an unknown target.
pub fn other_aliases_are_unknown()
    ensures { OtherAliasesAreUnknown }
{}

/// An alias that leads to a module takes it as a recipe.
pub fn module_aliases_are_refused()
    ensures { ModuleAliasesAreRefused }
{}
