//! Which runs agree with some answers.
ghost use Rattle.laws_naive.specs.Agreeing.Answering.{AnsweredOnceGoNaively, AnswersAreOne, AnswersAreThere, RunsAreTagged};

/// Where equal questions have equal answers there are answers that hold each entry.
pub fn answers_are_there()
    ensures { AnswersAreThere }
{}

/// And only there.
pub fn answers_are_one()
    ensures { AnswersAreOne }
{}

/// A run agrees with just those answers that hold each entry which it records, by its tag.
pub fn runs_are_tagged<Rule>()
    ensures { RunsAreTagged Rule }
{}

/// In a world that breaks no rule a run whose equal questions have equal answers goes naively by answers
/// that it agrees with.
pub fn answered_once_go_naively<Rule>()
    ensures { AnsweredOnceGoNaively Rule }
{}
