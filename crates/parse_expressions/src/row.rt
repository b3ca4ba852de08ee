//! Rows: items with commas between them, up to a closing mark.
ghost use Rattle.just_text.specs.Tokens.{word_of};
ghost use Rattle.parse_expressions.specs.Reading.{Gives, ahead};
ghost use Rattle.parse_expressions.specs.Rows.{more_at};

use crate::cursor::Cursor;
use crate::fault::Fault;
use just_text::TokenKind;

/// Whether another item of a row comes after the last one. Takes the comma before it, or the
/// closing mark, before which a comma may stand.
///
/// `Unexpected` where neither comes. After a refusal it is not said where the cursor stands.
#[tactic(auto, unfolding(crate::specs::Rows::more_at))]
pub fn is_more<'src>(cursor: &mut Cursor<'_, 'src>, close: TokenKind) -> Result<bool, Fault<'src>>
    ensures { Gives (λ more. (more, ahead cursor.new)) result (more_at word_of close (ahead cursor.old)) }
{
    if cursor.accept(TokenKind::Comma).is_none() {
        cursor.expect(close)?;
        return Ok(false);
    }
    Ok(cursor.accept(close).is_none())
}
