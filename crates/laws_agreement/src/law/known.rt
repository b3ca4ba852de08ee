//! What is defined by name is known where no rule is broken.
ghost use Rattle.laws_agreement.specs.Known.Known.{DefinedAreKnown, InvokedAreKnown, KeptAreKnown, WorldsAreInOrder};

/// Where a world breaks no rule, each name that a reached recipe or an opened variable reads or calls stands for something.
pub fn defined_are_known()
    ensures { DefinedAreKnown }
{}

/// Where a world breaks no rule, each name that any variable reads or calls stands for something.
pub fn kept_are_known()
    ensures { KeptAreKnown }
{}

/// Where a world breaks no rule, words invoke recipes that are there, with a group for each parameter.
pub fn invoked_are_known()
    ensures { InvokedAreKnown }
{}

/// In a world that a call's arguments stand for, the attributes of each recipe stand in their order.
pub fn worlds_are_in_order()
    ensures { WorldsAreInOrder }
{}
