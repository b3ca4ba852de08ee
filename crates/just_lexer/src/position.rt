//! Places in a text.

ghost use Rattle.std.specs.Prelude.{◌≡◌, ◌+◌, ◌<◌, ◌^◌, length};
ghost use Rattle.std.specs.List.{fold};
ghost use Rattle.just_lexer.specs.Modes.{advance, moved};

use just_text::TokenKind;

/// A place in a text: the bytes before it in its line, the lines before it, and the bytes before it.
#[derive(Clone, Copy, Debug, PartialEq, Eq)]
pub struct Position {
    pub column: u32,
    pub line: u32,
    pub offset: u32,
}

impl Position {
    /// In front of a text.
    pub const START: Position = Position {
        column: 0,
        line: 0,
        offset: 0,
    };

    /// The position after a text that begins here.
    fn behind(self, text: &str) -> Position
        requires offset { self.offset + length text.now < 2 ^ 32 }
        requires line { self.line + length text.now < 2 ^ 32 }
        requires column { self.column + length text.now < 2 ^ 32 }
        ensures { result ≡ fold advance self text.now }
    {
        let mut position = self;
        let bytes = text.as_bytes();
        for byte in bytes {
            position.offset += 1;
            if *byte == b'\n' {
                position.line += 1;
                position.column = 0;
            } else {
                position.column += 1;
            }
        }
        position
    }

    /// The position after a token. A byte order mark takes no column.
    pub fn moved(self, kind: TokenKind, lexeme: &str) -> Position
        requires offset { self.offset + length lexeme.now < 2 ^ 32 }
        requires line { self.line + length lexeme.now < 2 ^ 32 }
        requires column { self.column + length lexeme.now < 2 ^ 32 }
        ensures { result ≡ moved self kind lexeme.now }
    {
        match kind {
            TokenKind::ByteOrderMark => Position {
                column: self.column,
                line: self.line,
                offset: self.offset + lexeme.len() as u32,
            },
            _ => self.behind(lexeme),
        }
    }
}
