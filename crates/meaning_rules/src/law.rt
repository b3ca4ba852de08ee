//! Laws of the rules.
pub mod worlds;

ghost use Rattle.meaning_rules.specs.Examples.{UnreachedIsUnbroken};
ghost use Rattle.meaning_rules.specs.Graph.{AreReads};
ghost use Rattle.meaning_rules.specs.Laws.{CyclesAreReached, DependenciesStandBelow, FormattedTextsAreWritten, MeaningsRestOnNames, MeansAtMostOne, ModulesStandBelow, OverridesAreAsGiven, OverridesAreUnique, UnsaidBreaksNone};

/// Rules speak of what is reached, where all of it says something.
pub fn reached()
    ensures cycles { CyclesAreReached }
    ensures below { ModulesStandBelow }
    ensures dependencies { DependenciesStandBelow }
    ensures unsaid { UnsaidBreaksNone }
    ensures example { UnreachedIsUnbroken }
{}

/// Of the overrides of a variable one counts at most. What an expression means before anything runs
/// rests on the variables that it names alone, and a variable means one thing at most.
pub fn meanings()
    ensures overrides { OverridesAreUnique }
    ensures names { MeaningsRestOnNames }
    ensures once { MeansAtMostOne }
{}

/// What words give for variables counts under the names that they give it for; and a file that stands
/// in its formatted text has the text of what it says.
pub fn texts()
    ensures overrides { OverridesAreAsGiven }
    ensures formatted { FormattedTextsAreWritten }
{}
