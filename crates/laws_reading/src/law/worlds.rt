//! Worlds for texts.
ghost use Rattle.laws_reading.specs.Worlds.Laws.{WorldsAreGiven};

/// Whatever UTF-8 texts a call is given, there is a world that they stand for, also where a file has a
/// fault of the syntax, and where the root is missing.
pub fn worlds_are_given()
    ensures { WorldsAreGiven }
{}
