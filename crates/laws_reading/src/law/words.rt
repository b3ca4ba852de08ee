//! Reading looks at the kinds, texts and positions of tokens alone.
ghost use Rattle.laws_reading.specs.Words.Laws.{FilesGoAlike, HaltsAlike};

/// Reading the pieces of tokens gives what reading the tokens gives; and tokens with equal pieces halt
/// for the same reason, whatever texts and paths they borrow from.
pub fn reading_alike()
    ensures files { FilesGoAlike }
    ensures halts { HaltsAlike }
{}
