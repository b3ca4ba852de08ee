//! Lexing is total.
ghost use Rattle.laws_reading.specs.Tokens.Laws.{FaultsAreDecidable, TextsLex};

/// Each UTF-8 text has tokens or a fault, and of each reason it is decidable whether the text has a
/// fault for it.
pub fn texts_lex()
    ensures total { TextsLex }
    ensures decidable { FaultsAreDecidable }
{}
