//! Laws on the parameters of functions and of recipes, and on the attributes of recipes.
ghost use Rattle.laws_printing.specs.Distinct.Distinct.{CompilationsAreApart, FilesAreApart, WorldsAreApart};

/// The parameters of each function and of each recipe have different names, only a recipe's last parameter takes all values that remain, and no attribute stands twice before a recipe that may stand once.
pub fn parameters_differ()
    // So it is of the items that a text says.
    ensures files { FilesAreApart }
    // So it is of the items of each file that is reached in a world.
    ensures worlds { WorldsAreApart }
    // So it is of the items of each file of a module of a compilation.
    ensures compilations { CompilationsAreApart }
{}
