//! What the definitions of texts come to.
ghost use Rattle.tree_expressions.specs.Longest.{OnlyBlankLinesHaveNone, TextsAreCut, TheLongestIsTaken};
ghost use Rattle.tree_expressions.specs.Forms.{CommandsAreRead, PartsAreRead, StringsAreRead};
ghost use Rattle.tree_expressions.specs.Meaning.{AnswersMean, MeaningsAreAnswered};

/// The indentation of lines is the longest run of spaces and tabs with which each begins that isn't
/// blank; and a text is cut into lines after each newline, and nowhere else.
pub fn indentation()
    ensures longest { TheLongestIsTaken }
    ensures absent { OnlyBlankLinesHaveNone }
    ensures cut { TextsAreCut }
{}

/// Each answer to a text with escapes is what its characters stand for, or tells the first that are
/// no escape; and a text that stands for something is not refused.
pub fn escapes()
    ensures mean { AnswersMean }
    ensures answered { MeaningsAreAnswered }
{}

/// What stands between the marks of a string, a part of a format string or a command is read from
/// between them, and a string's kind is read from its prefix and marks.
pub fn forms()
    ensures strings { StringsAreRead }
    ensures parts { PartsAreRead }
    ensures commands { CommandsAreRead }
{}
