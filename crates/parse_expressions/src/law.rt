//! What reading expressions and deriving them have to do with each other.
ghost use Rattle.parse_expressions.specs.Laws.{AtMostOne, Holds, HoldsOfWords, TellsAlways};

/// What is read is derived, and what is derived is read; words derive at most one expression; and
/// where an expression is too deep, that is told.
pub fn law()
    ensures exactly { Holds }
    ensures words { HoldsOfWords }
    ensures one { AtMostOne }
    ensures why { TellsAlways }
{}
