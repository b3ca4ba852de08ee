//! Runs of the same words in one world go alike.
ghost use Rattle.laws_agreement.specs.Repeated.Repeated.{RunsGoAlike};

/// Two runs of what the same words invoke, by what is defined in one world that breaks no rule, go alike
/// where their records agree with one set of answers: both are refused before any recipe, or they have
/// the same events and end alike.
pub fn runs_go_alike<Rule>()
    ensures { RunsGoAlike Rule }
{}
