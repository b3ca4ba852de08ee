//! What plans of runs write.
ghost use Rattle.laws_naive.specs.Plans.Laws.{AgreeingAnswerWell, PlansAgree, PlansAreNaive, ReachedPlansAreNaive};

/// Answers that hold what a plan asks, and answer what it hands over by code 0 and yes, agree with the
/// run that is planned.
pub fn plans_agree<Rule>()
    ensures { PlansAgree Rule }
{}

/// And answers that agree with it answer so.
pub fn agreeing_answer_well<Rule>()
    ensures { AgreeingAnswerWell Rule }
{}

/// In a world that breaks no rule the plan is the text of the naive run.
pub fn plans_are_naive<Rule>()
    ensures { PlansAreNaive Rule }
{}

/// So it is by each input that agrees on what is reached.
pub fn reached_plans_are_naive<Rule>()
    ensures { ReachedPlansAreNaive Rule }
{}
