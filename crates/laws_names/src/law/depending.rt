//! Dependencies, aliases and cycles of recipes.
ghost use Rattle.laws_names.specs.Depending.Dependencies.{AliasesAreTold, DependenciesAreClear, DependenciesAreLed, DisabledDependenciesAreTold, KeptDependenciesAreTold, LedDependenciesArePlaced};
ghost use Rattle.laws_names.specs.Depending.Cycles.{CyclesAreClear, CyclesAreTold};

/// A dependency that has a place leads to the recipe there.
pub fn dependencies_are_led()
    ensures { DependenciesAreLed }
{}

/// A dependency that leads in the world to a recipe that takes its values has a place.
pub fn led_dependencies_are_placed()
    ensures { LedDependenciesArePlaced }
{}

/// The refusal of a kept recipe's dependencies names a rule that is broken.
pub fn kept_dependencies_are_told()
    ensures { KeptDependenciesAreTold }
{}

/// The refusal of a disabled recipe's dependencies names a rule that is broken.
pub fn disabled_dependencies_are_told()
    ensures { DisabledDependenciesAreTold }
{}

/// An alias that names a module, or nothing, breaks the rule.
pub fn aliases_are_told()
    ensures { AliasesAreTold }
{}

/// Where each dependency has a place and no alias leads to a module, no rule on dependencies is broken.
pub fn dependencies_are_clear()
    ensures { DependenciesAreClear }
{}

/// A cycle of needs is one of recipes.
pub fn cycles_are_told()
    ensures { CyclesAreTold }
{}

/// Where needs have no cycle, recipes have none.
pub fn cycles_are_clear()
    ensures { CyclesAreClear }
{}
