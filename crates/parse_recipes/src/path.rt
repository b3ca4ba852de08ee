//! Paths of names.
ghost use Rattle.std.specs.Prelude.{◌≡◌};
ghost use Rattle.just_text.specs.Tokens.{word_of};
ghost use Rattle.parse_expressions.specs.Reading.{Gives, ahead};
ghost use Rattle.tree_items.specs.Paths.{path_names};
ghost use Rattle.parse_recipes.specs.Reading.{path_at};

use just_text::{Name, Namepath, TokenKind};
use parse_expressions::{Cursor, Fault};
use std::alloc::Global;

/// Takes a name, or names with `::` between two.
///
/// `Unexpected` where no name comes, or none after `::`; `OutOfMemory`. After a refusal it is not
/// said where the cursor stands.
pub fn namepath<'src>(
    alloc: Global,
    cursor: &mut Cursor<'_, 'src>,
) -> Result<Namepath<'src>, Fault<'src>>
    ensures { Gives (λ p. (path_names p, ahead cursor.new)) result (path_at word_of (ahead cursor.old)) }
{
    let first = cursor.expect(TokenKind::Identifier)?;
    let mut path = Namepath::from_name(alloc, Name::from_token(first))?;
    while cursor.accept(TokenKind::ColonColon).is_some() {
        let name = cursor.expect(TokenKind::Identifier)?;
        path.push(Name::from_token(name))?;
    }
    Ok(path)
}
