//! An excerpt of a source.
ghost use Rattle.std.specs.Prelude.{◌≡◌, ◌+◌, replicate, Some};
ghost use Rattle.just_lexer.specs.Excerpts.{margin};

use crate::line::{before, covered, digits, onward};
use crate::repeated::{Carets, Spaces};
use crate::width::{Spaced, columns};
use just_text::Token;
use std::fmt;

/// Prints the place of a token and the line that it begins on, with carets under the token:
///
/// ```text
///  --> justfile:1:4
///   |
/// 1 | a: b
///   |    ^
/// ```
///
/// Lines count from 1, and so do columns, in bytes. The line is shown without its end and
/// without a byte order mark, with four spaces for each tab. There is a caret for each column that
/// the token's text on this line takes, at least one. No newline ends the last line.
#[derive(Clone, Copy)]
pub struct Excerpt<'a, 'src>(pub &'a Token<'src>);

/// The token's path, line and column, both from 1.
#[derive(Clone, Copy)]
struct Place<'a, 'src>(&'a Token<'src>);

/// The line's number and its text.
#[derive(Clone, Copy)]
struct Source<'a, 'src>(&'a Token<'src>);

/// The carets under the token.
#[derive(Clone, Copy)]
struct Marks<'a, 'src>(&'a Token<'src>);

/// The number of the line that the token begins on, from 1.
fn line_number(token: &Token<'_>) -> u128
    ensures { result ≡ token.now.line + 1 }
{
    token.line as u128 + 1
}

/// As many spaces as the line's number has digits.
fn margin(token: &Token<'_>) -> Spaces
    ensures { replicate result.0 32 ≡ margin token.now }
{
    Spaces(digits(line_number(token)))
}

impl fmt::Display for Place<'_, '_> {
    ghost use Rattle.just_lexer.specs.Excerpts.{place_line};

    ghost output = { λ place. Some (place_line place.0.now) };

    fn fmt<W: fmt::Write>(&self, f: &mut fmt::Formatter<W>) -> fmt::Result {
        let token = self.0;
        let margin = margin(token);
        let path = token.path;
        let line = line_number(token);
        let column = token.column as u128 + 1;
        write!(f, "{margin}--> {path}:{line}:{column}")
    }
}

impl fmt::Display for Source<'_, '_> {
    ghost use Rattle.just_lexer.specs.Excerpts.{source_line};

    ghost output = { λ source. Some (source_line source.0.now) };

    fn fmt<W: fmt::Write>(&self, f: &mut fmt::Formatter<W>) -> fmt::Result {
        let token = self.0;
        let line = line_number(token);
        let before = Spaced(before(token));
        let onward = Spaced(onward(token));
        write!(f, "{line} | {before}{onward}")
    }
}

impl fmt::Display for Marks<'_, '_> {
    ghost use Rattle.just_lexer.specs.Excerpts.{mark_line};

    ghost output = { λ marks. Some (mark_line marks.0.now) };

    fn fmt<W: fmt::Write>(&self, f: &mut fmt::Formatter<W>) -> fmt::Result {
        let token = self.0;
        let margin = margin(token);
        let indent = Spaces(columns(before(token)));
        let carets = Carets(columns(covered(token)).max(1));
        write!(f, "{margin} | {indent}{carets}")
    }
}

impl fmt::Display for Excerpt<'_, '_> {
    ghost use Rattle.just_lexer.specs.Excerpts.{excerpt};

    ghost output = { λ e. Some (excerpt e.0.now) };

    fn fmt<W: fmt::Write>(&self, f: &mut fmt::Formatter<W>) -> fmt::Result {
        let place = Place(self.0);
        let margin = margin(self.0);
        let source = Source(self.0);
        let marks = Marks(self.0);
        write!(f, "{place}\n{margin} |\n{source}\n{marks}")
    }
}
