//! What runs do by each input that agrees on what they reach.
ghost use Rattle.laws_naive.specs.Inputs.Reached.{ReachedGoNaively, RefusalsAgree};

/// The run of a call goes naively by each input that breaks no rule, whose words invoke the same, and
/// which agrees on what is reached.
pub fn reached_go_naively<Rule>()
    ensures { ReachedGoNaively Rule }
{}

/// So the answers refuse the one input's opening exactly where they refuse the other's.
pub fn refusals_agree<Rule>()
    ensures { RefusalsAgree Rule }
{}
