//! What stands at both ends of a string or a command.

ghost use Rattle.std.specs.Prelude.{◌≡◌, ◌<◌, ◌≤◌};
ghost use Rattle.just_lexer.specs.Strings as spec;

/// The character of the quotes.
#[derive(Clone, Copy, Debug, PartialEq, Eq)]
pub enum Quote {
    Single,
    Double,
    Backtick,
}

/// A quote, alone or three times.
#[derive(Clone, Copy, Debug, PartialEq, Eq)]
pub struct Quotes {
    pub quote: Quote,
    pub tripled: bool,
}

impl Quote {
    pub fn byte(self) -> u8
        ensures { result ≡ spec.quote_byte self }
    {
        match self {
            Quote::Single => b'\'',
            Quote::Double => b'"',
            Quote::Backtick => b'`',
        }
    }

    /// The quote that a byte is; an apostrophe for the others.
    pub fn from_byte(byte: u8) -> Quote
        ensures { result ≡ spec.quote_of byte }
    {
        match byte {
            b'"' => Quote::Double,
            b'`' => Quote::Backtick,
            _ => Quote::Single,
        }
    }
}

impl Quotes {
    pub fn len(self) -> usize
        ensures { result ≡ spec.quotes_len self }
    {
        if self.tripled { 3 } else { 1 }
    }

    /// Whether a backslash escapes.
    pub fn has_escapes(self) -> bool
        ensures { result ≡ spec.has_escapes self }
    {
        self.quote.byte() == b'"'
    }
}
