//! What runs do by fixed answers.
ghost use Rattle.laws_naive.specs.Naive.Laws.{InvokedGoNaively, RecordsAgree, RunsGoNaively, SteadyRunsAreNaive, WrittenSteady};

/// A run that agrees with answers is refused before any recipe exactly where the answers refuse its
/// opening; else, where all is steady, it hands over what the naive run does, up to the first failure.
pub fn runs_go_naively<Rule>()
    ensures { RunsGoNaively Rule }
{}

/// So it is of what words invoke in a world that breaks no rule.
pub fn invoked_go_naively<Rule>()
    ensures { InvokedGoNaively Rule }
{}

/// What is steady by what is written is steady.
pub fn written_steady()
    ensures { WrittenSteady }
{}

/// A run agrees with answers that hold each entry which it records.
pub fn records_agree<Rule>()
    ensures { RecordsAgree Rule }
{}

/// A run of a steady justfile that got past its opening hands over what the naive run does, by answers
/// that hold all that was recorded.
pub fn steady_runs_are_naive<Rule>()
    ensures { SteadyRunsAreNaive Rule }
{}
