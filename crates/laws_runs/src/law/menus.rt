//! Menus by places, and by paths and names.
ghost use Rattle.laws_runs.specs.Menus.Named.{MenusAreNamed};
ghost use Rattle.laws_runs.specs.Menus.Targets.{TargetsAreNamed};

/// Menus by places are those by paths and names.
pub fn menus_are_named()
    ensures { MenusAreNamed }
{}

/// What a word names by places is what it names by paths and names.
pub fn targets_are_named()
    ensures { TargetsAreNamed }
{}
