//! The items of a file.
ghost use Rattle.std.specs.Prelude.{◌≡◌, IfOk, OnOk, []};
ghost use Rattle.std.specs.List.{All};
ghost use Rattle.just_text.specs.Tokens.{word_of};
ghost use Rattle.tree_items.specs.Files.{item_shapes};
ghost use Rattle.parse_expressions.specs.Origins.{origin_of};
ghost use Rattle.parse_expressions.specs.Reading.{ahead};
ghost use Rattle.parse_recipes.specs.Numbering.{AreUsed, IsFrugal};
ghost use Rattle.parse_attributed_items.specs.Halting.{GivesOrHalts};
ghost use Rattle.parse_attributed_items.specs.Held.{IsItemCooked, IsOwnItem};
ghost use Rattle.justfile_syntax.specs.Features.{features_of};
ghost use Rattle.justfile_syntax.specs.Numbered.{AreInOrder};
ghost use Rattle.justfile_syntax.specs.Parsed.{IsWhole};
ghost use Rattle.justfile_syntax.specs.Reading.{ended, file_at};
ghost use Rattle.justfile_syntax.specs.Told.{items_read};

use crate::features::features;
use crate::item::{entry, push_entry};
use just_text::{Expander, Numerator, TokenKind};
use parse_attributed_items::law::law;
use parse_expressions::{Context, Cursor, Fault};
use parse_recipes::recipe_law::recipe_law;
use semver::Version;
use std::alloc::{AllocError, Global};
use tree_items::{Ast, Item};

/// Refuses what stands after the end of a file.
fn check_end<'src>(cursor: &mut Cursor<'_, 'src>) -> Result<(), Fault<'src>>
    ensures { GivesOrHalts ⊥ (λ _. []) result (ended word_of (ahead cursor.old)) }
{
    match cursor.peek() {
        None => Ok(()),
        Some(token) => Err(Fault::Unexpected(Some(token))),
    }
}

/// The items of a file, after a byte order mark if there is one.
fn items<'src, E: Expander>(
    alloc: Global,
    cursor: &mut Cursor<'_, 'src>,
    context: &Context<'_, 'src, E>,
    numerator: &mut Numerator,
    current: &Version,
) -> Result<Vec<Item<'src>>, Fault<'src>>
    ensures gives { GivesOrHalts (AreUsed numerator.new) (λ items. item_shapes items.items) result (items_read (file_at word_of (E.expansion context.now.expander.now) current.now (ahead cursor.old))) }
    ensures numbers { IfOk result (λ items. AreInOrder numerator.old numerator.new items.items) }
    ensures frugal { IsFrugal (ahead cursor.old) numerator.old numerator.new }
    ensures own { IfOk result (λ items. All (IsOwnItem (E.expansion context.now.expander.now)) items.items) }
    ensures cooked { IfOk result (λ items. All (IsItemCooked (origin_of E.expansion context.now)) items.items) }
{
    law();
    recipe_law();
    let _mark = cursor.accept(TokenKind::ByteOrderMark);
    let mut items = Vec::new(alloc);
    while cursor.accept(TokenKind::Eof).is_none() {
        let read = entry(alloc, cursor, context, numerator, current)?;
        push_entry(&mut items, read)?;
    }
    check_end(cursor)?;
    Ok(items)
}

/// Tells the features that the tree's items use.
fn tell_features(alloc: Global, ast: &mut Ast) -> Result<(), AllocError>
    ensures items { OnOk result (ast.new.items.items ≡ ast.old.items.items) }
    ensures features { OnOk result (ast.new.unstable_features.items ≡ features_of (item_shapes ast.old.items.items)) }
{
    ast.unstable_features = features(alloc, &ast.items)?;
    Ok(())
}

/// The tree of a file, after a byte order mark if there is one. Variables, parameters and recipes
/// take the numerator's next numbers in order.
///
/// Refused with the first rule that is broken, where numbers run out, and where memory does.
pub(crate) fn tree<'src, E: Expander>(
    alloc: Global,
    cursor: &mut Cursor<'_, 'src>,
    context: &Context<'_, 'src, E>,
    numerator: &mut Numerator,
    current: &Version,
) -> Result<Ast<'src>, Fault<'src>>
    ensures gives { GivesOrHalts (AreUsed numerator.new) (λ ast. item_shapes ast.items.items) result (items_read (file_at word_of (E.expansion context.now.expander.now) current.now (ahead cursor.old))) }
    ensures numbers { IfOk result (λ ast. AreInOrder numerator.old numerator.new ast.items.items) }
    ensures frugal { IsFrugal (ahead cursor.old) numerator.old numerator.new }
    ensures whole { IfOk result (IsWhole (origin_of E.expansion context.now)) }
{
    let items = items(alloc, cursor, context, numerator, current)?;
    let mut ast = Ast {
        items,
        unstable_features: Vec::new(alloc),
    };
    tell_features(alloc, &mut ast)?;
    Ok(ast)
}
