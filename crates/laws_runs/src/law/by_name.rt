//! Expressions, lines and interpreters of a recipe mean by number what they mean by name.
ghost use Rattle.laws_runs.specs.ByName.Laws.{BodiesMean, EnvironmentsMean, ExpressionsMean, FunctionsMean, InterpretersMean, LinesMean, VariablesMean, WordsMean};

/// Where an evaluator is that of a recipe's body by name, each expression whose names are known means by number what it means
/// by name. So do lines, and the interpreter that the attribute `script` names; commands are given the same environment; and a
/// body of these is that by name.
pub fn recipes_mean_by_name()
    ensures expressions { ExpressionsMean }
    ensures lines { LinesMean }
    ensures interpreters { InterpretersMean }
    ensures environments { EnvironmentsMean }
    ensures words { WordsMean }
    ensures bodies { BodiesMean }
{}

/// Parameters, and variables that have the numbers of their names, are known; functions of such variables are the same by name.
pub fn numbers_are_of_names()
    ensures variables { VariablesMean }
    ensures functions { FunctionsMean }
{}
