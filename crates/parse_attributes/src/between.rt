//! What stands between attributes.
ghost use Rattle.std.specs.Prelude.{◌≡◌, false};
ghost use Rattle.just_text.specs.Tokens.{word_of};
ghost use Rattle.parse_expressions.specs.Reading.{Gives, ahead};
ghost use Rattle.parse_attributes.specs.Lines.{behind_comments};
ghost use Rattle.parse_attributes.specs.Reading.{another_at, line_end_at};
ghost use Rattle.parse_attributes.specs.Held.{comment_line_at, if_taken};

use just_text::TokenKind;
use parse_expressions::{Cursor, Fault, is_more};

/// Takes a comment and the end of its line, if they come here.
#[tactic(auto, unfolding(crate::specs::Held::comment_line_at))]
fn comment_line(cursor: &mut Cursor) -> bool
    ensures taken { comment_line_at word_of (ahead cursor.old) ≡ if_taken result (ahead cursor.new) }
    ensures stays { result ≡ false → ahead cursor.new ≡ ahead cursor.old }
{
    let mut behind = *cursor;
    if behind.accept(TokenKind::Comment).is_none() || behind.accept(TokenKind::Eol).is_none() {
        return false;
    }
    *cursor = behind;
    true
}

/// Takes all lines on which a comment stands alone.
fn comment_lines(cursor: &mut Cursor)
    ensures { ahead cursor.new ≡ behind_comments word_of (ahead cursor.old) }
{
    while comment_line(cursor) {}
}

/// The end of a line, perhaps after a comment, and the comment lines after it.
#[tactic(auto, unfolding(crate::specs::Reading::line_end_at))]
fn line_end<'src>(cursor: &mut Cursor<'_, 'src>) -> Result<(), Fault<'src>>
    ensures { Gives (λ _. ahead cursor.new) result (line_end_at word_of (ahead cursor.old)) }
{
    let _comment = cursor.accept(TokenKind::Comment);
    cursor.expect(TokenKind::Eol)?;
    comment_lines(cursor);
    Ok(())
}

/// Whether another attribute comes after the last one: after a comma, or in brackets on a line of
/// its own.
#[tactic(auto, unfolding(crate::specs::Reading::another_at))]
pub(crate) fn is_another<'src>(cursor: &mut Cursor<'_, 'src>) -> Result<bool, Fault<'src>>
    ensures { Gives (λ another. (another, ahead cursor.new)) result (another_at word_of (ahead cursor.old)) }
{
    if is_more(cursor, TokenKind::BracketR)? {
        return Ok(true);
    }
    line_end(cursor)?;
    Ok(cursor.accept(TokenKind::BracketL).is_some())
}
