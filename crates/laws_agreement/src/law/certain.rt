//! Openings, runs, evaluations of values and commands that don't end with `internal`.
ghost use Rattle.laws_agreement.specs.Certain.Certain.{CommandsEndCertainly, EvaluationsEndCertainly, OpeningsAreCertain, RunsAreCertain, RunsEndCertainly};

/// No opening ends with `internal` where each name that a variable reads or calls stands for something.
pub fn openings_are_certain()
    ensures { OpeningsAreCertain }
{}

/// No run of calls ends with `internal` where each name that their recipes read or call stands for something, and what they read was opened.
pub fn runs_are_certain()
    ensures { RunsAreCertain }
{}

/// No run from its opening on ends with `internal` where each name that is read or called stands for something, and each call has a group for each parameter.
pub fn runs_end_certainly<Rule>()
    ensures { RunsEndCertainly Rule }
{}

/// No evaluation of values ends with `internal` where each name that a variable reads or calls stands for something.
pub fn evaluations_end_certainly()
    ensures { EvaluationsEndCertainly }
{}

/// No handing over of one command ends with `internal` where each name stands for something that the variables which open for it read or call.
pub fn commands_end_certainly()
    ensures { CommandsEndCertainly }
{}
