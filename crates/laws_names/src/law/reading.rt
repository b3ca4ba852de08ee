//! Parts of items, what their references read and call, refusals, and cycles of variables.
ghost use Rattle.laws_names.specs.Reading.Parts.{PartsAreSeen, RecipeReferencesAreSeen, SettingReferencesAreSeen};
ghost use Rattle.laws_names.specs.Reading.Places.{PlacesAreMeant};
ghost use Rattle.laws_names.specs.Reading.Told.{ReadsAreTold, RefusalsAreTold};
ghost use Rattle.laws_names.specs.Reading.Clear.{ReadsAreClear};
ghost use Rattle.laws_names.specs.Reading.Cycles.{CyclesAreBroken, OrdersHaveNoCycle};
ghost use Rattle.laws_names.specs.Reading.Carried.{NumberedAreMeant};
ghost use Rattle.laws_names.specs.Reading.Matching.{NumberedFilesMatch};

/// The parts of an item are its expressions in order, each with the parameters that it sees.
pub fn parts_are_seen()
    ensures { PartsAreSeen }
{}

/// The calls and variables of a recipe are those of its expressions in order.
pub fn recipe_references_are_seen()
    ensures { RecipeReferencesAreSeen }
{}

/// The calls and variables of a setting are those of its expressions in order.
pub fn setting_references_are_seen()
    ensures { SettingReferencesAreSeen }
{}

/// What the references of an item read and call is what the rules say.
pub fn places_are_meant()
    ensures { PlacesAreMeant }
{}

/// The fault of an item that a module keeps tells a rule that is broken.
pub fn reads_are_told()
    ensures { ReadsAreTold }
{}

/// A fault that refuses a module's variables and functions tells a rule that is broken.
pub fn refusals_are_told()
    ensures { RefusalsAreTold }
{}

/// Where no module is refused, no rule of what expressions read and call is broken.
pub fn reads_are_clear()
    ensures { ReadsAreClear }
{}

/// The variables of a cycle in a module's graph of reads break the rule of circular variables.
pub fn cycles_are_broken()
    ensures { CyclesAreBroken }
{}

/// Where variables stand in an order after all that they read, the module has no cycle of them.
pub fn orders_have_no_cycle()
    ensures { OrdersHaveNoCycle }
{}

/// A compilation that stands for the modules of a world before its variables get their numbers does
/// so after, with the numbers of its names.
pub fn numbered_are_meant()
    ensures { NumberedAreMeant }
{}

/// Files say what their sources say also once variables have their numbers.
pub fn numbered_files_match()
    ensures { NumberedFilesMatch }
{}
