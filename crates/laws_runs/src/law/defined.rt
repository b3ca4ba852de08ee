//! Analyses of justfiles, and what worlds define.
ghost use Rattle.laws_runs.specs.Defined.Calls.{WordsInvokeRecipes};
ghost use Rattle.laws_runs.specs.Defined.Defined.{AnalysesAreDefined};

/// What is known of a resolved justfile by places is what its world defines by paths and names.
pub fn analyses_are_defined()
    ensures { AnalysesAreDefined }
{}

/// Words invoke recipes of the table alone.
pub fn words_invoke_recipes()
    ensures { WordsInvokeRecipes }
{}
