//! What a list of words must be, so that a lexer finds just these in their joined text.

ghost use Rattle.justfile_syntax.specs.Words.{JoinsUp, ComesApart, LexesBack};
ghost use Rattle.justfile_syntax.specs.Fits.{FittingStand};
ghost use Rattle.justfile_syntax.specs.Table.{TableHolds, BreaksKeepApart};
ghost use Rattle.justfile_syntax.specs.InCode.{PlainWords, BracketsOpen, BracketsClose, WholeFormats, FormatsOpen, FormatsClose};
ghost use Rattle.justfile_syntax.specs.Lines.{StartsLikeALine, LinesBegin, BracketsBegin, ColonsAnnounce, LinesEnd, EmptyLines, CommentLines, TextsEnd};
ghost use Rattle.justfile_syntax.specs.Bodies.{BodiesBegin, LinesGoOn, EmptyBodyLines, TextsGoOn, ExpressionsOpen, ExpressionsClose, BodyLinesEnd, BodiesEnd};
ghost use Rattle.justfile_syntax.specs.WholeBodies.{BodiesLex};
ghost use Rattle.justfile_syntax.specs.Lexemes.{TokensAreLexemes, LexemesAnywhere, LexedAreLexemes, PartsAnywhere, TextsEndWell};
ghost use Rattle.justfile_syntax.specs.Beside.{LeadsToBreaks, LeadsToNext, SpacesLeadOn};

/// Words lex back: what holds of the tokens of a text that is made of words.
pub fn words_lex_back()
    // Words that lead to a mode, and words that lead on from it, lead on one after the other.
    ensures joins { JoinsUp }
    // Words one after the other lead to a mode between the first and the others.
    ensures apart { ComesApart }
    // Words that lead from the start to the end, with nothing after them, are the tokens of their joined text.
    ensures back { LexesBack }
    // A word that fits is the longest token at its place.
    ensures fits { FittingStand }
    // The table of kinds tells what doesn't run together.
    ensures table { TableHolds }
    // A byte that no mark, word or string goes on with keeps apart.
    ensures breaks { BreaksKeepApart }
{}

/// Words in code lex back: in a line outside bodies, and in expressions.
pub fn code_lexes_back()
    // A plain word that fits leads on in the same mode.
    ensures words { PlainWords }
    // A name, a string, a command or a mark leads on before a byte that it doesn't go on with.
    ensures breaks { LeadsToBreaks }
    // It leads on before a token that may stand after it.
    ensures next { LeadsToNext }
    // A space leads on before anything but white space.
    ensures spaces { SpacesLeadOn }
    // An opening bracket leads into the bracket.
    ensures opens { BracketsOpen }
    // Its closing bracket leads out of it.
    ensures closes { BracketsClose }
    // A whole format string leads on in the same mode.
    ensures formats { WholeFormats }
    // One that stops at an expression leads into it.
    ensures enter { FormatsOpen }
    // Its end leads out of it.
    ensures leave { FormatsClose }
{}

/// Lines outside bodies lex back.
pub fn lines_lex_back()
    // The start of the text is like a line's start.
    ensures start { StartsLikeALine }
    // A plain word leads from the line's start into the line.
    ensures begin { LinesBegin }
    // An opening bracket leads into the bracket in the line.
    ensures bracket { BracketsBegin }
    // After a `:` a body may come.
    ensures colon { ColonsAnnounce }
    // A line end leads to the next line.
    ensures end { LinesEnd }
    // An empty line leads to the next one.
    ensures empty { EmptyLines }
    // A line that is a comment leads to the next one.
    ensures comment { CommentLines }
    // Before nothing stands the end of the text.
    ensures last { TextsEnd }
{}

/// Bodies of recipes lex back.
pub fn bodies_lex_back()
    // The indentation leads into the body's first line.
    ensures begin { BodiesBegin }
    // The same indentation leads into a later line.
    ensures indented { LinesGoOn }
    // An empty line leads to the next one.
    ensures empty { EmptyBodyLines }
    // Text leads on in its line.
    ensures text { TextsGoOn }
    // Two braces lead into an expression.
    ensures enter { ExpressionsOpen }
    // Two braces lead out of it.
    ensures leave { ExpressionsClose }
    // A line end leads to the body's next line.
    ensures end { BodyLinesEnd }
    // The body ends before what isn't indented.
    ensures last { BodiesEnd }
    // A whole body's words lead to the line after it.
    ensures whole { BodiesLex }
{}

/// The tokens of a text are words that may be printed again.
pub fn tokens_are_words()
    // A token by itself is one token of its kind.
    ensures token { TokensAreLexemes }
    // For most kinds it is one wherever it may stand.
    ensures anywhere { LexemesAnywhere }
    // Each token of a text is one.
    ensures each { LexedAreLexemes }
    // The parts of a format string are tokens whatever is open around it.
    ensures parts { PartsAnywhere }
    // Text with an expression after it may have one after it again.
    ensures text { TextsEndWell }
{}
