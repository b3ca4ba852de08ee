//! What is not reached changes no run.
ghost use Rattle.laws_naive.specs.Reach.Alike.{AgreementIsMutual, RunsAreReached, RunsMove, SameIsReached};
ghost use Rattle.laws_naive.specs.Reach.Plans.{PlansAreSame, RefusedPlansAreEmpty};
ghost use Rattle.laws_naive.specs.Reach.Worlds.{ReachDecides, RunsAreOfReached};

/// Inputs that agree on what is reached agree both ways.
pub fn agreement_is_mutual()
    ensures { AgreementIsMutual }
{}

/// They reach the same recipes and open the same variables.
pub fn same_is_reached()
    ensures { SameIsReached }
{}

/// A run by the one is a run by the other.
pub fn runs_move<Rule>()
    ensures { RunsMove Rule }
{}

/// Two runs of the same calls go alike where their records agree with one set of answers.
pub fn runs_are_reached<Rule>()
    ensures { RunsAreReached Rule }
{}

/// So they do in worlds that break no rule, whatever words invoke the calls.
pub fn reach_decides<Rule>()
    ensures { ReachDecides Rule }
{}

/// And a run in the one world is a run in the other.
pub fn runs_are_of_reached<Rule>()
    ensures { RunsAreOfReached Rule }
{}

/// Where modules could not open no plan is written.
pub fn refused_plans_are_empty()
    ensures { RefusedPlansAreEmpty }
{}

/// Plans of runs that go alike have the same text.
pub fn plans_are_same()
    ensures { PlansAreSame }
{}
