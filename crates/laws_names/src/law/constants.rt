//! Constants and settings of modules, by the rules of a world.
ghost use Rattle.laws_names.specs.Constants.Broken.{FoundConstantsAreTold, FoundSettingsAnswer};
ghost use Rattle.laws_names.specs.Constants.Expressions.{ConstantsTellNames, ExpressionsSettle};
ghost use Rattle.laws_names.specs.Constants.Lists.{ListsAreSaid};
ghost use Rattle.laws_names.specs.Constants.Settings.{RefusedOnesLack, SetOnesAnswer};
ghost use Rattle.laws_names.specs.Constants.Variables.{ConstantsMean};

use std::collections::BTreeMap;

/// What a variable gives to the expression of a constant tells its name, where it is no constant.
pub fn constants_tell_names()
    ensures { ConstantsTellNames }
{}

/// What an expression settles to by the numbers of its variables is what it settles to by their names.
pub fn expressions_settle()
    ensures { ExpressionsSettle }
{}

/// A setting that is set by the numbers of variables has an answer by their names.
pub fn set_ones_answer()
    ensures { SetOnesAnswer }
{}

/// A setting that is refused by the numbers of variables has no answer by their names.
pub fn refused_ones_lack()
    ensures { RefusedOnesLack }
{}

/// Lists are on where the module's setting of lists sets them.
pub fn lists_are_said()
    ensures { ListsAreSaid }
{}

/// Variables that settle one after another mean what is found, and a fault is what one of them means.
pub fn constants_mean(overrides: &BTreeMap<u64, String>)
    ensures { ConstantsMean overrides.now }
{}

/// Settings that are set, once constants are found, lack no answer, and those that are refused lack one.
pub fn settings_answer(overrides: &BTreeMap<u64, String>)
    ensures { FoundSettingsAnswer overrides.now }
{}

/// The rule on constants is not broken where constants are found and settings are set, and is broken where one is refused.
pub fn constants_are_told(overrides: &BTreeMap<u64, String>)
    ensures { FoundConstantsAreTold overrides.now }
{}
