//! Items after their attributes.
ghost use Rattle.std.specs.Prelude.{◌≡◌, ◌↔◌, [], IfOk, IsTrue};
ghost use Rattle.just_text.specs.Numbers.{Numbers};
ghost use Rattle.just_text.specs.Tokens.{word_of};
ghost use Rattle.tree_items.specs.Files.{item_shape, kind_of};
ghost use Rattle.parse_expressions.specs.Literals.{Origin};
ghost use Rattle.parse_expressions.specs.Origins.{origin_of};
ghost use Rattle.parse_expressions.specs.Reading.{ahead};
ghost use Rattle.parse_recipes.specs.Numbering.{AreUsed, GivesUnless, IsFrugal};
ghost use Rattle.parse_items.specs.Reading.{kind_at};
ghost use Rattle.parse_attributes.specs.Seen.{AreWholeReads, read_shapes};
ghost use Rattle.parse_attributed_items.specs.Options.{GivesOrRefuses};
ghost use Rattle.parse_attributed_items.specs.Fitting.{argument_fault, fault_in, known, name_of};
ghost use Rattle.parse_attributed_items.specs.Halting.{GivesOrHalts};
ghost use Rattle.parse_attributed_items.specs.Held.{IsItemCooked, IsItemNumbered, IsOwnItem};
ghost use Rattle.parse_attributed_items.specs.Plain.{IsBareCooked, IsBareTree};
ghost use Rattle.parse_attributed_items.specs.Reading.{attributed_at, bare_behind, joined, parts_at};
ghost use Rattle.parse_attributed_items.specs.Refusals.{head_fault};
ghost use Rattle.parse_attributed_items.specs.Seen.{AreWholeArguments, AreWholeWhereKnown, parts_of, read_of};

use crate::bare::{ItemRead, bare_item};
use crate::carriers::may_stand;
use crate::defaults::check_unattributed;
use crate::fit::{ensure_fit, item_name};
use crate::split::ordered;
use crate::trees::item_with;
use just_text::{Expander, Numerator, both};
use parse_attributes::law::law;
use parse_attributes::{AttributeRead, attributes};
use parse_expressions::{Context, Cursor, Fault};
use parse_items::kind::kind;
use semver::Version;
use std::alloc::Global;

/// Attributes, and the item after them without them.
#[derive(Drop)]
struct PartsRead<'src> {
    attributes: Vec<AttributeRead<'src>>,
    read: ItemRead<'src>,
}

/// The item that stands here, after these attributes but without them.
fn bare_behind<'src, E: Expander>(
    alloc: Global,
    cursor: &mut Cursor<'_, 'src>,
    context: &Context<'_, 'src, E>,
    numerator: &mut Numerator,
    current: &Version,
    attributes: &[AttributeRead<'src>],
) -> Result<ItemRead<'src>, Fault<'src>>
    ensures gives { GivesUnless (AreUsed numerator.new) (λ r. (read_of r, ahead cursor.new)) result (bare_behind word_of (E.expansion context.now.expander.now) current.now (read_shapes attributes.now) (kind_at word_of (ahead cursor.old)) (ahead cursor.old)) }
    ensures numbers { IfOk result (λ r. IsItemNumbered numerator.old numerator.new r.item) }
    ensures frugal { IsFrugal (ahead cursor.old) numerator.old numerator.new }
    ensures plain { IfOk result (λ r. IsBareTree r.item) }
    ensures cooked { IfOk result (λ r. IsBareCooked (origin_of E.expansion context.now) r.item) }
{
    let kind = kind(*cursor);
    if !may_stand(attributes, kind) {
        return Err(cursor.unexpected());
    }
    bare_item(alloc, cursor, context, numerator, current, kind)
}

/// The attributes that stand here, and the item after them.
#[tactic(auto, unfolding(crate::specs::Reading::parts_at))]
fn parts<'src, E: Expander>(
    alloc: Global,
    cursor: &mut Cursor<'_, 'src>,
    context: &Context<'_, 'src, E>,
    numerator: &mut Numerator,
    current: &Version,
) -> Result<PartsRead<'src>, Fault<'src>>
    ensures gives { GivesUnless (AreUsed numerator.new) (λ p. (parts_of p, ahead cursor.new)) result (parts_at word_of (E.expansion context.now.expander.now) current.now (ahead cursor.old)) }
    ensures whole { IfOk result (λ p. AreWholeReads (origin_of E.expansion context.now) p.attributes.items) }
    ensures arguments { IfOk result (λ p. AreWholeWhereKnown (E.expansion context.now.expander.now) (read_shapes p.attributes.items)) }
    ensures numbers { IfOk result (λ p. IsItemNumbered numerator.old numerator.new p.read.item) }
    ensures frugal { IsFrugal (ahead cursor.old) numerator.old numerator.new }
    ensures plain { IfOk result (λ p. IsBareTree p.read.item) }
    ensures cooked { IfOk result (λ p. IsBareCooked (origin_of E.expansion context.now) p.read.item) }
{
    law();
    let attributes = attributes(alloc, cursor, context)?;
    let read = bare_behind(alloc, cursor, context, numerator, current, &attributes);
    let (attributes, read) = both(attributes, read)?;
    Ok(PartsRead { attributes, read })
}

/// Whether no attribute stands before the item.
fn is_bare(parts: &PartsRead) -> bool
    ensures { IsTrue result ↔ (parts.now.attributes.items ≡ []) }
{
    parts.attributes.is_empty()
}

/// Whether the attributes fit the item after them, whatever the `arg`s say.
fn ensure_parts_fit<'src>(alloc: Global, parts: &PartsRead<'src>) -> Result<(), Fault<'src>>
    ensures { GivesOrRefuses result (head_fault (kind_of (item_shape parts.now.read.item)) (name_of (item_shape parts.now.read.item)) (read_shapes parts.now.attributes.items)) }
{
    let item = &parts.read.item;
    ensure_fit(alloc, item.kind(), item_name(item), &parts.attributes)
}

/// The item with its attributes.
fn joined<'src>(alloc: Global, parts: PartsRead<'src>) -> Result<ItemRead<'src>, Fault<'src>>
    ensures gives { (origin : Origin) → AreWholeReads origin parts.entry.attributes.items → GivesOrRefuses result (argument_fault origin.expansion (known (read_shapes parts.entry.attributes.items)) (item_shape parts.entry.read.item)) }
    ensures shape { IfOk result (λ r. read_of r ≡ (joined (parts_of parts.entry), parts.entry.read.blank_lines)) }
    ensures numbers { (old new : Numbers) → IsItemNumbered old new parts.entry.read.item → IfOk result (λ r. IsItemNumbered old new r.item) }
    ensures own { (origin : Origin) → AreWholeReads origin parts.entry.attributes.items → AreWholeArguments origin.expansion (known (read_shapes parts.entry.attributes.items)) → IsBareTree parts.entry.read.item → IfOk result (λ r. IsOwnItem origin.expansion r.item) }
    ensures cooked { (origin : Origin) → AreWholeReads origin parts.entry.attributes.items → IsBareTree parts.entry.read.item → IsBareCooked origin parts.entry.read.item → IfOk result (λ r. IsItemCooked origin r.item) }
{
    let blank_lines = parts.read.blank_lines;
    let known = ordered(alloc, parts.attributes);
    let (item, known) = both(parts.read.item, known)?;
    let item = item_with(alloc, item, known)?;
    Ok(ItemRead { item, blank_lines })
}

/// The item with its attributes, if they fit it.
fn fitted<'src>(alloc: Global, parts: PartsRead<'src>) -> Result<ItemRead<'src>, Fault<'src>>
    ensures gives { (origin : Origin) → AreWholeReads origin parts.entry.attributes.items → GivesOrRefuses result (fault_in origin.expansion (read_shapes parts.entry.attributes.items) (item_shape parts.entry.read.item)) }
    ensures shape { IfOk result (λ r. read_of r ≡ (joined (parts_of parts.entry), parts.entry.read.blank_lines)) }
    ensures numbers { (old new : Numbers) → IsItemNumbered old new parts.entry.read.item → IfOk result (λ r. IsItemNumbered old new r.item) }
    ensures own { (origin : Origin) → AreWholeReads origin parts.entry.attributes.items → AreWholeWhereKnown origin.expansion (read_shapes parts.entry.attributes.items) → IsBareTree parts.entry.read.item → IfOk result (λ r. IsOwnItem origin.expansion r.item) }
    ensures cooked { (origin : Origin) → AreWholeReads origin parts.entry.attributes.items → IsBareTree parts.entry.read.item → IsBareCooked origin parts.entry.read.item → IfOk result (λ r. IsItemCooked origin r.item) }
{
    let fit = ensure_parts_fit(alloc, &parts);
    let (parts, _fit) = both(parts, fit)?;
    joined(alloc, parts)
}

/// Takes the item that stands here after its attributes. It is neither a comment nor a blank line.
///
/// Refused where no such item stands here, where an item has attributes that takes none, or one that
/// it may not carry, where an attribute stands twice that may stand once, where the options of an
/// `arg` may not stand together or the `arg`s break a rule of the parameters, and where numbers or
/// memory run out. After a refusal it is not said where the cursor stands; no more numbers of a kind
/// were used than there were tokens.
pub fn attributed_item<'src, E: Expander>(
    alloc: Global,
    cursor: &mut Cursor<'_, 'src>,
    context: &Context<'_, 'src, E>,
    numerator: &mut Numerator,
    current: &Version,
) -> Result<ItemRead<'src>, Fault<'src>>
    ensures gives { GivesOrHalts (AreUsed numerator.new) (λ r. ((item_shape r.item, r.blank_lines), ahead cursor.new)) result (attributed_at word_of (E.expansion context.now.expander.now) current.now (ahead cursor.old)) }
    ensures numbers { IfOk result (λ r. IsItemNumbered numerator.old numerator.new r.item) }
    ensures frugal { IsFrugal (ahead cursor.old) numerator.old numerator.new }
    ensures own { IfOk result (λ r. IsOwnItem (E.expansion context.now.expander.now) r.item) }
    ensures cooked { IfOk result (λ r. IsItemCooked (origin_of E.expansion context.now) r.item) }
{
    let parts = parts(alloc, cursor, context, numerator, current)?;
    if is_bare(&parts) {
        check_unattributed(alloc, &parts.read.item)?;
        return Ok(parts.read);
    }
    fitted(alloc, parts)
}
