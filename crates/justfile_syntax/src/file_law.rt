//! What reading files and deriving them have to do with each other.
ghost use Rattle.justfile_syntax.specs.Laws.{AtMostOne, FaultsSayNothing, FilesHold, SaysAtMostOne};

/// What is read is derived, and what is derived is read; words derive the items of one file at
/// most, and a text says those of one at most; a text that is refused says nothing.
pub fn file_law()
    ensures files { FilesHold }
    ensures one { AtMostOne }
    ensures texts { SaysAtMostOne }
    ensures faults { FaultsSayNothing }
{
    just_lexer::lexer::law();
    parse_attributed_items::law::law();
    parse_recipes::recipe_law::recipe_law();
}
