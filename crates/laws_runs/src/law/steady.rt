//! Justfiles that are steady by places are steady by names.
ghost use Rattle.laws_runs.specs.Steady.Stands.{SteadinessStands};

/// A justfile is steady by what is written at places exactly where it is by what is defined by name.
pub fn steadiness_stands()
    ensures { SteadinessStands }
{}
