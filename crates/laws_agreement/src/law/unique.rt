//! What is defined by name is one.
ghost use Rattle.laws_agreement.specs.Unique.Unique.{DefinitionsAreOne};

/// Two that are what is defined by name in one world are the same.
pub fn definitions_are_one()
    ensures { DefinitionsAreOne }
{}
