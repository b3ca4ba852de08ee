//! Two runs that agree with one set of answers go alike.
ghost use Rattle.laws_agreement.specs.Determined.Determined.{CommandsAreDetermined, EvaluationsAreDetermined, KeptOpeningsAreDetermined, RunOpeningsAreDetermined, RunsAreDetermined};

/// Two openings of the same modules where recipes are invoked go alike, where they agree with one set of answers.
pub fn run_openings_are_determined()
    ensures { RunOpeningsAreDetermined }
{}

/// Two openings of the same modules where all variables open go alike, where they agree with one set of answers.
pub fn kept_openings_are_determined()
    ensures { KeptOpeningsAreDetermined }
{}

/// Two runs of the same calls that agree with one set of answers go alike.
pub fn runs_are_determined<Rule>()
    ensures { RunsAreDetermined Rule }
{}

/// The text that is evaluated over two openings that agree with one set of answers is the same.
pub fn evaluations_are_determined()
    ensures { EvaluationsAreDetermined }
{}

/// The command that is handed over behind two openings that agree with one set of answers is the same, and ends alike.
pub fn commands_are_determined()
    ensures { CommandsAreDetermined }
{}
