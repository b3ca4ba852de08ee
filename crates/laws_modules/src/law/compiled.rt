//! A law on what compiling gives.
ghost use Rattle.laws_modules.specs.Compiled.Filled.{FilledAreCompiled};

/// The modules of a world, each of which keeps what it defines, are a compilation of the world.
pub fn filled_are_compiled()
    ensures { FilledAreCompiled }
{}
