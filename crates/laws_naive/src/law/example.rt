//! The premises of the laws of naive runs can be met.
ghost use Rattle.laws_naive.specs.Example.Laws.{ExampleIsClear, IsRefusedNaively, RunsNaively};

/// The world of a small justfile meets all premises of the laws of naive runs: there is a run in it that
/// hands a command over, and one whose opening is refused.
pub fn premises_are_met()
    ensures clear { ExampleIsClear }
    ensures runs { RunsNaively }
    ensures refused { IsRefusedNaively }
{}
