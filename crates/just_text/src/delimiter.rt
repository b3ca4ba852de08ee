//! Brackets.
ghost use Rattle.std.specs.Prelude.{◌≡◌};
ghost use Rattle.just_text.specs.Texts as texts;

/// A sort of brackets.
#[derive(Clone, Copy, Debug, PartialEq, Eq)]
pub enum Delimiter {
    Brace,
    Bracket,
    Paren,
}

impl Delimiter {
    /// The character that opens.
    pub fn open(self) -> char
        ensures { result ≡ texts.opening self }
    {
        match self {
            Delimiter::Brace => '{',
            Delimiter::Bracket => '[',
            Delimiter::Paren => '(',
        }
    }

    /// The character that closes.
    pub fn close(self) -> char
        ensures { result ≡ texts.closing self }
    {
        match self {
            Delimiter::Brace => '}',
            Delimiter::Bracket => ']',
            Delimiter::Paren => ')',
        }
    }
}
