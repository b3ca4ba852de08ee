//! Laws of files that are loaded for a module.
ghost use Rattle.laws_modules.specs.Files.Laws.{LoadedAreFiles, LoadedAreFaultless, LoadedImportThere, RefusedAreTold};

use std::collections::BTreeMap;

/// Files that are loaded for a module are those of the module, as the rules tell them.
pub fn loaded_files(sources: &BTreeMap<String, String>)
    ensures files { LoadedAreFiles sources.now }
    ensures there { LoadedImportThere sources.now }
    ensures faultless { LoadedAreFaultless sources.now }
{}

/// Where the files of a module are refused, the refusal names a rule that is broken.
pub fn refused_files(sources: &BTreeMap<String, String>)
    ensures { RefusedAreTold sources.now }
{}
