//! How wide a text is, with four columns for each tab.
ghost use Rattle.std.specs.Prelude.{◌≡◌, ◌∷◌, [], encode_utf8_all, Some};
ghost use Rattle.just_lexer.specs.Columns.{columns, shown, spaced};

use std::fmt;
use unicode_width::UnicodeWidthStr;

/// How many columns a tab takes.
const TAB_WIDTH: u128 = 4;

/// A text that is printed with four spaces in place of each tab.
#[derive(Clone, Copy)]
pub struct Spaced<'a>(pub &'a str);

impl<'a> Spaced<'a> {
    /// The text as it is.
    fn text(&self) -> &'a str
        ensures { result.now ≡ self.now.0.now }
    {
        self.0
    }
}

/// A character that is printed as it is, or as four spaces if it is a tab.
#[derive(Clone, Copy)]
struct SpacedCharacter(char);

impl fmt::Display for SpacedCharacter {
    ghost output = { λ character. Some (encode_utf8_all (spaced (character.0 ∷ []))) };

    fn fmt<W: fmt::Write>(&self, f: &mut fmt::Formatter<W>) -> fmt::Result {
        let character = self.0;
        if character == '\t' {
            write!(f, "    ")
        } else {
            write!(f, "{character}")
        }
    }
}

impl fmt::Display for Spaced<'_> {
    ghost output = { λ text. Some (shown text.0.now) };

    fn fmt<W: fmt::Write>(&self, f: &mut fmt::Formatter<W>) -> fmt::Result {
        for character in self.text().chars() {
            let shown = SpacedCharacter(character);
            write!(f, "{shown}")?;
        }
        Ok(())
    }
}

/// The columns that the text takes, with four spaces in place of each tab.
pub fn columns(text: &str) -> u128
    ensures { result ≡ columns text.now }
{
    let mut total: u128 = 0;
    let mut rest = text;
    while let Some((piece, more)) = rest.split_once('\t') {
        total += piece.width() as u128 + TAB_WIDTH;
        rest = more;
    }
    total + rest.width() as u128
}
