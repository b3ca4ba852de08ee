//! Laws of modules that are loaded.
ghost use Rattle.laws_modules.specs.Modules.Laws.{LoadedAreModules, LoadedAreSaid, WorldIsThere};

use std::collections::BTreeMap;

/// The modules that are loaded are those that the rules tell, and each file that is reached says
/// something.
pub fn loaded_modules(sources: &BTreeMap<String, String>)
    ensures modules { LoadedAreModules sources.now }
    ensures said { LoadedAreSaid sources.now }
{}

/// For each justfile that is loaded there is a world that its sources stand for.
pub fn its_world(sources: &BTreeMap<String, String>)
    ensures { WorldIsThere sources.now }
{}
