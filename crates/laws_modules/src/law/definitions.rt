//! What a module defines and keeps is what the meaning says.
ghost use Rattle.laws_modules.specs.Definitions.Laws.{DefinitionsAreMeant, DuplicatesAreTwice, KeptAreMeant, ListsAreMeant, MeantAreKept, SingleAreOfOneKind, SingleIsNotTwice, SubmodulesAreMeant};

/// The definitions that are found in a module are those that the meaning says it has, and so are the recipes that another system disables.
pub fn definitions_are_meant()
    ensures { DefinitionsAreMeant }
{}

/// What is kept of them the module keeps.
pub fn kept_are_meant()
    ensures { KeptAreMeant }
{}

/// What the module keeps is kept of them, where those of one name are of one kind.
pub fn meant_are_kept()
    ensures { MeantAreKept }
{}

/// Definitions of one name are of one kind, where none is a second one that may not stand.
pub fn single_are_of_one_kind()
    ensures { SingleAreOfOneKind }
{}

/// The lists of a module are what it keeps.
pub fn lists_are_meant()
    ensures { ListsAreMeant }
{}

/// The submodules of a module are those whose parent it is.
pub fn submodules_are_meant()
    ensures { SubmodulesAreMeant }
{}

/// A second definition that may not stand is one of a name that the module has twice.
pub fn duplicates_are_twice()
    ensures { DuplicatesAreTwice }
{}

/// Where there is no such definition, the module has no name twice.
pub fn single_is_not_twice()
    ensures { SingleIsNotTwice }
{}
