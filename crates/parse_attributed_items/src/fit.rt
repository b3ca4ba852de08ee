//! Whether attributes fit the item after them, whatever the `arg`s say.
ghost use Rattle.std.specs.Prelude.{◌≡◌, IfOk, IfSome, find, is_some, not, option_map};
ghost use Rattle.just_text.specs.declared.compile_error.CompileErrorKind.TheVariants as kinds;
ghost use Rattle.tree_attributes.specs.Attributes.{kind_name, kind_of};
ghost use Rattle.tree_items.specs.Files.{item_shape};
ghost use Rattle.parse_attributes.specs.Seen.{read_shape, read_shapes};
ghost use Rattle.parse_attributed_items.specs.Options.{GivesOrRefuses};
ghost use Rattle.parse_attributed_items.specs.Fitting.{known, name_of, repeated};
ghost use Rattle.parse_attributed_items.specs.Refusals.{head_fault, is_misplaced, is_named, is_repeated, known_fault, may_repeat, name_in};

use just_text::{CompileErrorKind, Text};
use parse_attributes::AttributeRead;
use parse_expressions::Fault;
use std::alloc::{AllocError, Global};
use tree_attributes::{AttributeKind, ItemKind, may_carry};
use tree_items::Item;

/// The name of an item that may have attributes; empty for others.
pub(crate) fn item_name<'src>(item: &Item<'src>) -> &'src str
    ensures { result.now ≡ name_of (item_shape item.now) }
{
    let name = match item {
        Item::Alias(alias) => alias.name,
        Item::Assignment(assignment) => assignment.name,
        Item::Module(submodule) => submodule.name,
        Item::Recipe(recipe) => recipe.name,
        Item::Set(set) => set.name,
        _ => return "",
    };
    name.lexeme()
}

/// The name of the attribute's kind; empty where the attribute is not known.
fn kind_name(read: &AttributeRead) -> &'static str
    ensures { result.now ≡ name_in (read_shape read.now) }
{
    match &read.attribute {
        Some(attribute) => attribute.kind().name(),
        None => "",
    }
}

/// The first attribute that is not known, as its options may not stand together.
fn unknown<'a, 'src>(reads: &'a [AttributeRead<'src>]) -> Option<&'a AttributeRead<'src>>
    ensures { option_map (λ r. r.now) result ≡ find (λ r. not (is_some r.attribute)) reads.now }
{
    reads.iter().find(|read| read.attribute.is_none())
}

/// Whether the attribute is one that the item may not carry.
fn is_misplaced(carrier: ItemKind, read: &AttributeRead) -> bool
    ensures { result ≡ is_misplaced carrier (read_shape read.now) }
{
    match &read.attribute {
        Some(attribute) => !may_carry(carrier, attribute.kind()),
        None => false,
    }
}

/// The first attribute that the item may not carry.
fn misfit<'a, 'src>(
    carrier: ItemKind,
    reads: &'a [AttributeRead<'src>],
) -> Option<&'a AttributeRead<'src>>
    ensures { option_map (λ r. r.now) result ≡ find (λ r. is_misplaced carrier (read_shape r)) reads.now }
{
    reads.iter().find(|read| is_misplaced(carrier, read))
}

/// Whether the attribute is of that kind.
#[tactic(auto, using(crate::proofs::Named::kind_named))]
fn is_of(read: &AttributeRead, kind: AttributeKind) -> bool
    ensures { result ≡ is_named (kind_name kind) (read_shape read.now) }
{
    match &read.attribute {
        Some(attribute) => attribute.kind() == kind,
        None => false,
    }
}

/// The first attribute of that kind.
fn first_of<'a, 'src>(
    reads: &'a [AttributeRead<'src>],
    kind: AttributeKind,
) -> Option<&'a AttributeRead<'src>>
    ensures { option_map (λ r. r.now) result ≡ find (λ r. is_named (kind_name kind) (read_shape r)) reads.now }
{
    reads.iter().find(|read| is_of(read, kind))
}

/// The kind of the attribute, if it is known and may not stand again.
fn single(read: &AttributeRead) -> Option<AttributeKind>
    ensures kind { IfSome result (λ kind. kind_name kind ≡ name_in (read_shape read.now)) }
    ensures single { is_some result ≡ not (may_repeat (read_shape read.now)) }
{
    let attribute = read.attribute.as_ref()?;
    let kind = attribute.kind();
    if kind.is_repeatable() {
        return None;
    }
    Some(kind)
}

/// The first of these attributes that repeats the attribute, if it may not stand again.
fn again<'a, 'src>(
    read: &AttributeRead<'src>,
    behind: &'a [AttributeRead<'src>],
) -> Option<&'a AttributeRead<'src>>
    ensures found { is_some result ≡ is_repeated (read_shapes behind.now) (read_shape read.now) }
    ensures named { IfSome result (λ r. name_in (read_shape r.now) ≡ name_in (read_shape read.now)) }
{
    let kind = single(read)?;
    first_of(behind, kind)
}

/// What repeats the first attribute that stands again and may not.
fn repeated<'a, 'src>(reads: &'a [AttributeRead<'src>]) -> Option<&'a AttributeRead<'src>>
    ensures { option_map (λ r. name_in (read_shape r.now)) result ≡ option_map (λ a. kind_name (kind_of a)) (repeated (known (read_shapes reads.now))) }
{
    for (i, read) in reads.iter().enumerate() {
        let again = again(read, &reads[i + 1..]);
        if again.is_some() {
            return again;
        }
    }
    None
}

/// The refusal of an attribute that doesn't fit the item with that name.
fn invalid(alloc: Global, attribute: &str, item: &str) -> Result<CompileErrorKind, AllocError>
    ensures { IfOk result (λ kind. kind ≡ kinds.InvalidAttribute attribute.now item.now) }
{
    let attribute = Text::from_text(alloc, attribute)?;
    let item = Text::from_text(alloc, item)?;
    Ok(CompileErrorKind::InvalidAttribute(attribute, item))
}

/// The refusal of an attribute that stands twice.
fn duplicate(alloc: Global, attribute: &str) -> Result<CompileErrorKind, AllocError>
    ensures { IfOk result (λ kind. kind ≡ kinds.DuplicateAttribute attribute.now) }
{
    let attribute = Text::from_text(alloc, attribute)?;
    Ok(CompileErrorKind::DuplicateAttribute(attribute))
}

/// Whether each attribute may be carried by an item of that kind and name, and none is there twice
/// that may be there once.
fn ensure_known_fit<'src>(
    alloc: Global,
    carrier: ItemKind,
    name: &str,
    reads: &[AttributeRead<'src>],
) -> Result<(), Fault<'src>>
    ensures { GivesOrRefuses result (known_fault carrier name.now (known (read_shapes reads.now))) }
{
    if let Some(read) = misfit(carrier, reads) {
        let fault = invalid(alloc, kind_name(read), name)?;
        return Err(Fault::Refused(read.name.token, fault));
    }
    if let Some(read) = repeated(reads) {
        let fault = duplicate(alloc, kind_name(read))?;
        return Err(Fault::Refused(read.name.token, fault));
    }
    Ok(())
}

/// Whether the attributes fit an item of that kind and name, whatever the `arg`s say.
///
/// Refused at an `arg` whose options may not stand together, at an attribute that the item may not
/// carry, at one that stands again and may not, and where memory runs out.
pub(crate) fn ensure_fit<'src>(
    alloc: Global,
    carrier: ItemKind,
    name: &str,
    reads: &[AttributeRead<'src>],
) -> Result<(), Fault<'src>>
    ensures { GivesOrRefuses result (head_fault carrier name.now (read_shapes reads.now)) }
{
    if let Some(read) = unknown(reads) {
        let fault = invalid(alloc, "arg", name)?;
        return Err(Fault::Refused(read.name.token, fault));
    }
    ensure_known_fit(alloc, carrier, name, reads)
}
