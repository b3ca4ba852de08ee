//! What is found in an expression's tree is what the rules say that it names.
ghost use Rattle.laws_modules.specs.References.Occurrences.{ReferencesAreOccurrences};

/// The calls and variables that are found in an expression are those that stand in it, each once for
/// each time that it stands there, a call before those in its arguments.
pub fn references_are_occurrences()
    ensures { ReferencesAreOccurrences }
{}
