//! What is found in a file are its submodules, and a refusal tells a rule that is broken.
ghost use Rattle.laws_modules.specs.Submodules.Submodules.{FoundAreSubmodules, RefusalsAreTold};

use std::collections::BTreeMap;

/// The submodules that are found in a file are those of the world's file.
pub fn found_are_submodules(sources: &BTreeMap<String, String>)
    ensures { FoundAreSubmodules sources.now }
{}

/// Where a submodule is refused, the world breaks the rule that the refusal names.
pub fn refusals_are_told(sources: &BTreeMap<String, String>)
    ensures { RefusalsAreTold sources.now }
{}
