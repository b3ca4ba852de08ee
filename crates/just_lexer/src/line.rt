//! The parts of the line that a token begins on.
ghost use Rattle.std.specs.Prelude.{◌≡◌, length};
ghost use Rattle.std.specs.Fmt.{decimal};
ghost use Rattle.just_text.specs.Tokens.{lexeme};
ghost use Rattle.just_lexer.specs.Excerpts.{before, behind_mark, covered, first_line, last_line, onward};

use just_text::Token;

/// The line's text before the token.
pub fn before<'src>(token: &Token<'src>) -> &'src str
    ensures { result.now ≡ before token.now }
{
    last_line(behind_mark(&token.src[..token.offset as usize]))
}

/// The line's text from the token on.
pub fn onward<'src>(token: &Token<'src>) -> &'src str
    ensures { result.now ≡ onward token.now }
{
    first_line(&token.src[token.offset as usize..])
}

/// The part of the token on its first line.
pub fn covered<'src>(token: &Token<'src>) -> &'src str
    ensures { result.now ≡ covered token.now }
{
    first_line(token.lexeme())
}

/// The text after the byte order mark, if it begins with one.
fn behind_mark(text: &str) -> &str
    ensures { result.now ≡ behind_mark text.now }
{
    text.strip_prefix("\u{feff}").unwrap_or(text)
}

/// The text after its last newline.
fn last_line(text: &str) -> &str
    ensures { result.now ≡ last_line text.now }
{
    match text.rfind('\n') {
        Some(newline) => &text[newline + 1..],
        None => text,
    }
}

/// The text up to its first line end.
fn first_line(text: &str) -> &str
    ensures { result.now ≡ first_line text.now }
{
    text.lines().next().unwrap_or("")
}

/// How many digits the number is written with.
pub fn digits(number: u128) -> u128
    ensures { result ≡ length (decimal number) }
{
    let mut count = 1;
    let mut rest = number;
    while rest >= 10 {
        rest /= 10;
        count += 1;
    }
    count
}
