//! What stands between the items of a file, and its items.
ghost use Rattle.std.specs.Prelude.{◌≡◌, ◌++◌, ◌∷◌, IfOk, OnOk, replicate};
ghost use Rattle.just_text.specs.Tokens.{word_of};
ghost use Rattle.tree_items.specs.declared.ast.Item.TheVariants.{Newline};
ghost use Rattle.tree_items.specs.Files.{item_shape};
ghost use Rattle.parse_expressions.specs.Origins.{origin_of};
ghost use Rattle.parse_expressions.specs.Reading.{Gives, ahead};
ghost use Rattle.parse_recipes.specs.Numbering.{AreUsed, IsFrugal};
ghost use Rattle.parse_attributed_items.specs.Halting.{GivesOrHalts};
ghost use Rattle.parse_attributed_items.specs.Held.{IsItemCooked, IsItemNumbered, IsOwnItem};
ghost use Rattle.justfile_syntax.specs.Reading.{comment_at, entry_at, filled_at};

use just_text::{Expander, Numerator, TokenKind};
use parse_attributed_items::{ItemRead, attributed_item};
use parse_expressions::{Context, Cursor, Fault, end_of_line};
use semver::Version;
use std::alloc::{AllocError, Global};
use tree_items::Item;

/// A comment alone on its line, without the white space at its end.
#[tactic(auto, unfolding(crate::specs::Reading::comment_at))]
fn comment<'src>(cursor: &mut Cursor<'_, 'src>) -> Result<&'src str, Fault<'src>>
    ensures { Gives (λ text. (text.now, ahead cursor.new)) result (comment_at word_of (ahead cursor.old)) }
{
    let token = cursor.expect(TokenKind::Comment)?;
    end_of_line(cursor)?;
    Ok(token.lexeme().trim_end())
}

/// A comment alone on its line, or an item after its attributes.
#[tactic(auto, unfolding(crate::specs::Reading::filled_at))]
fn filled<'src, E: Expander>(
    alloc: Global,
    cursor: &mut Cursor<'_, 'src>,
    context: &Context<'_, 'src, E>,
    numerator: &mut Numerator,
    current: &Version,
) -> Result<ItemRead<'src>, Fault<'src>>
    ensures gives { GivesOrHalts (AreUsed numerator.new) (λ r. ((item_shape r.item, r.blank_lines), ahead cursor.new)) result (filled_at word_of (E.expansion context.now.expander.now) current.now (ahead cursor.old)) }
    ensures numbers { IfOk result (λ r. IsItemNumbered numerator.old numerator.new r.item) }
    ensures frugal { IsFrugal (ahead cursor.old) numerator.old numerator.new }
    ensures own { IfOk result (λ r. IsOwnItem (E.expansion context.now.expander.now) r.item) }
    ensures cooked { IfOk result (λ r. IsItemCooked (origin_of E.expansion context.now) r.item) }
{
    if !cursor.is_next(TokenKind::Comment) {
        return attributed_item(alloc, cursor, context, numerator, current);
    }
    let text = comment(cursor)?;
    Ok(ItemRead {
        item: Item::Comment(text),
        blank_lines: 0,
    })
}

/// A blank line, a comment alone on its line, or an item after its attributes.
#[tactic(auto, unfolding(crate::specs::Reading::entry_at))]
pub(crate) fn entry<'src, E: Expander>(
    alloc: Global,
    cursor: &mut Cursor<'_, 'src>,
    context: &Context<'_, 'src, E>,
    numerator: &mut Numerator,
    current: &Version,
) -> Result<ItemRead<'src>, Fault<'src>>
    ensures gives { GivesOrHalts (AreUsed numerator.new) (λ r. ((item_shape r.item, r.blank_lines), ahead cursor.new)) result (entry_at word_of (E.expansion context.now.expander.now) current.now (ahead cursor.old)) }
    ensures numbers { IfOk result (λ r. IsItemNumbered numerator.old numerator.new r.item) }
    ensures frugal { IsFrugal (ahead cursor.old) numerator.old numerator.new }
    ensures own { IfOk result (λ r. IsOwnItem (E.expansion context.now.expander.now) r.item) }
    ensures cooked { IfOk result (λ r. IsItemCooked (origin_of E.expansion context.now) r.item) }
{
    if cursor.accept(TokenKind::Eol).is_none() {
        return filled(alloc, cursor, context, numerator, current);
    }
    Ok(ItemRead {
        item: Item::Newline,
        blank_lines: 0,
    })
}

/// Adds so many blank lines at the end.
fn push_blank_lines(items: &mut Vec<Item>, count: usize) -> Result<(), AllocError>
    ensures { OnOk result (items.new.items ≡ items.old.items ++ replicate count Newline) }
{
    for _ in 0..count {
        items.push(Item::Newline)?;
    }
    Ok(())
}

/// Adds the item at the end, and after it the blank lines that stand after its body.
pub(crate) fn push_entry<'src>(
    items: &mut Vec<Item<'src>>,
    read: ItemRead<'src>,
) -> Result<(), AllocError>
    ensures { OnOk result (items.new.items ≡ items.old.items ++ read.entry.item ∷ replicate read.entry.blank_lines Newline) }
{
    items.push(read.item)?;
    push_blank_lines(items, read.blank_lines)
}
