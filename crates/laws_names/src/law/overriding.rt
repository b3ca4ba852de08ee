//! Variables that words name, and the texts that they give for them.
ghost use Rattle.laws_names.specs.Overriding.Variables.{VariablesAreFound};
ghost use Rattle.laws_names.specs.Overriding.Texts.{GivenTextsOverride, NamedOverridesAreKnown, UnnamedOverridesAreUnknown};

/// The variable to which names lead in a compilation is that which the module of their path keeps, and there is none where there is none in the world.
pub fn variables_are_found()
    ensures { VariablesAreFound }
{}

/// An override that has no variable's number names no variable.
pub fn unnamed_overrides_are_unknown()
    ensures { UnnamedOverridesAreUnknown }
{}

/// Where each override has a variable's number, none names no variable.
pub fn named_overrides_are_known()
    ensures { NamedOverridesAreKnown }
{}

/// The text given for the number of a variable is that of the last override that names it.
pub fn given_texts_override()
    ensures { GivenTextsOverride }
{}
