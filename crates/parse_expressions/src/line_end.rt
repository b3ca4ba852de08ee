//! Ends of lines.
ghost use Rattle.std.specs.Prelude.{◌≡◌, IfOk};
ghost use Rattle.just_text.specs.Tokens.{word_of};
ghost use Rattle.parse_expressions.specs.LineEnds.{eol_at};
ghost use Rattle.parse_expressions.specs.Reading.{Gives, ahead};

use crate::cursor::Cursor;
use crate::fault::Fault;
use just_text::TokenKind;

/// Takes the end of a line, perhaps after a comment. The end of the file serves too, and is not
/// taken.
///
/// `Unexpected` where neither comes. After a refusal it is not said where the cursor stands.
#[tactic(auto, unfolding(crate::specs::LineEnds::eol_at, crate::specs::Reading::is_next))]
pub fn end_of_line<'src>(cursor: &mut Cursor<'_, 'src>) -> Result<(), Fault<'src>>
    ensures { Gives (λ _. ahead cursor.new) result (eol_at word_of (ahead cursor.old)) }
{
    let _comment = cursor.accept(TokenKind::Comment);
    if cursor.accept(TokenKind::Eol).is_some() || cursor.is_next(TokenKind::Eof) {
        return Ok(());
    }
    Err(cursor.unexpected())
}

/// What was read, where its line ends here as `end_of_line` has it.
///
/// `Unexpected` where the line goes on; then what was read is dropped, and it is not said where the
/// cursor stands.
pub fn ended<'src, T: Drop>(cursor: &mut Cursor<'_, 'src>, read: T) -> Result<T, Fault<'src>>
    ensures gives { Gives (λ _. ahead cursor.new) result (eol_at word_of (ahead cursor.old)) }
    ensures same { IfOk result (λ x. x ≡ read) }
{
    end_of_line(cursor)?;
    Ok(read)
}
