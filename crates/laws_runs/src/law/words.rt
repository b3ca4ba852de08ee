//! What words invoke, by whatever modules and recipes are called.
ghost use Rattle.laws_runs.specs.Words.Same.{NamesAloneCount};
ghost use Rattle.laws_runs.specs.Words.Renamed.{RenamedAlike};

/// Where names mean the same, words invoke the same recipes or break the same rule.
pub fn names_alone_count<Module, Recipe>()
    ensures { NamesAloneCount Module Recipe }
{}

/// Where modules and recipes are called otherwise, words invoke the recipes so called or break the same rule.
pub fn renamed_alike<Module, Recipe, OtherModule, OtherRecipe>()
    ensures { RenamedAlike Module Recipe OtherModule OtherRecipe }
{}
