//! Laws of what a justfile means, which contracts above cite.
ghost use Rattle.std.specs.Prelude.{◌≡◌};
ghost use Rattle.just_meaning.specs.Actions.{command_task};
ghost use Rattle.just_meaning.specs.Agreement.{AgreesRun};
ghost use Rattle.just_meaning.specs.Determined.{EqualEventsGoAlike, RefusedGoAlike};
ghost use Rattle.just_meaning.specs.Driving.{CallGoes};
ghost use Rattle.just_meaning.specs.Laws.{GivenFaultsRefuse, PlansTellEvents, PlansTellNaively, RefusedExactly};
ghost use Rattle.just_meaning.specs.Meanings.{IsNaive};
ghost use Rattle.just_meaning.specs.Menus.{menu_of};
ghost use Rattle.just_meaning.specs.Opening.{OpensAll};
ghost use Rattle.just_meaning.specs.Reach.{AgreeOnReach};
ghost use Rattle.just_meaning.specs.Reading.{RecipeReads};
ghost use Rattle.just_meaning.specs.Rows.{module_row};
ghost use Rattle.just_meaning.specs.Runs.{RunGoes};
ghost use Rattle.just_meaning.specs.Steady.{AreSteady};

/// Brings the laws into the check.
#[tactic(auto, using(crate::proofs::Examples::dependencies_first))]
pub fn law(number: u8) -> u8
    ensures { result ≡ number }
{
    number
}

/// Two runs that were refused in their opening go alike, and so do two with the same events, as many
/// calls and the same end.
pub fn runs_go_alike<Rule>()
    ensures refused { RefusedGoAlike Rule }
    ensures events { EqualEventsGoAlike Rule }
{}

/// A fault that the answers give as that of an opening refuses it.
pub fn given_faults_refuse()
    ensures { GivenFaultsRefuse }
{}

/// What goes naively is refused before any recipe exactly where the answers refuse the opening.
pub fn refused_exactly<Rule>()
    ensures { RefusedExactly Rule }
{}

/// The text of a plan is that of the events alone.
pub fn plans_tell_events()
    ensures { PlansTellEvents }
{}

/// The plan of a run that goes naively is the text of the naive run, and none where the opening is refused.
pub fn plans_tell_naively<Rule>()
    ensures { PlansTellNaively Rule }
{}
