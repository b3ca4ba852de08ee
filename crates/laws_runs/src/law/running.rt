//! Modules open, steps of calls go, and tasks are done by names as by places.
ghost use Rattle.just_meaning.specs.Driving.{CallRule};
ghost use Rattle.laws_runs.specs.Running.Begun.{CallsBeginNamed, CommandsBeginNamed, EvaluationsBeginNamed, RunsBeginNamed, StepsBeginNamed};
ghost use Rattle.laws_runs.specs.Running.Openings.{TasksOpenByNames};
ghost use Rattle.laws_runs.specs.Running.Running.{CommandsAreNamed, EvaluationsAreNamed, RunsCalledAreNamed};
ghost use Rattle.laws_runs.specs.Running.Steps.{RunsAreNamed, StepsAreNamed};
ghost use Rattle.laws_runs.specs.Running.Told.{JobsAreNamed, ValuesAreNamed};

/// For any task, modules open by names as they open by places, and a beginning of it by places is one by names.
pub fn tasks_open_by_names()
    ensures { TasksOpenByNames }
{}

/// Steps of calls by the places of their recipes are steps by their names, where an analyzed justfile is open by numbers and by names.
pub fn steps_are_named()
    ensures { StepsAreNamed }
{}

/// A run of calls by places is one by their names.
pub fn runs_are_named()
    ensures { RunsAreNamed }
{}

/// What was recorded of a step of a call by places that was cut is a beginning of what the step records by names.
pub fn steps_begin_named()
    ensures { StepsBeginNamed }
{}

/// What was recorded of a run of calls by places, however it ended, is the beginning of what a run by their names records.
pub fn runs_begin_named()
    ensures { RunsBeginNamed }
{}

/// Calls that run by the places of their recipes run by their names, from the opening of modules on.
pub fn calls_run_by_names()
    ensures { RunsCalledAreNamed CallRule }
{}

/// Values that are told by places are told by names, over modules that are open alike.
pub fn values_told_by_names()
    ensures { ValuesAreNamed }
{}

/// The job of a command in the root module by places is that by names, over modules that are open alike.
pub fn jobs_made_by_names()
    ensures { JobsAreNamed }
{}

/// What is evaluated by places is evaluated by names, from the opening of modules on.
pub fn evaluations_go_by_names()
    ensures { EvaluationsAreNamed }
{}

/// A command that is handed over by places is handed over by names, from the opening of modules on.
pub fn commands_go_by_names()
    ensures { CommandsAreNamed }
{}

/// What was recorded of calls by places, however they ended, is the beginning of what a run by their names records, from the opening of modules on.
pub fn calls_begin_by_names()
    ensures { CallsBeginNamed }
{}

/// So it is of what is evaluated.
pub fn evaluations_begin_by_names()
    ensures { EvaluationsBeginNamed }
{}

/// So it is of a command that is handed over.
pub fn commands_begin_by_names()
    ensures { CommandsBeginNamed }
{}
