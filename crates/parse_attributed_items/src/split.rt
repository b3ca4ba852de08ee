//! Attributes in their order, and beside them the options of those that are `arg`s.
ghost use Rattle.std.specs.Prelude.{◌≡◌, ◌++◌, [], IfOk, OnOk, Some, map};
ghost use Rattle.std.specs.List.{cons_option};
ghost use Rattle.std.specs.Option.{option_map};
ghost use Rattle.tree_attributes.specs.Sets.Order.{in_order, item_shape};
ghost use Rattle.tree_attributes.specs.Sets.Sets.{shapes_in};
ghost use Rattle.parse_expressions.specs.Literals.{Origin};
ghost use Rattle.parse_attributes.specs.Seen.{AreWholeReads, read_shapes};
ghost use Rattle.parse_attributed_items.specs.Fitting.{known};
ghost use Rattle.parse_attributed_items.specs.Seen.{AreWholeKnown, AreWholeOrdered, attribute_in, with_name};

use just_text::{Name, both};
use parse_attributes::AttributeRead;
use std::alloc::{AllocError, Global};
use tree_attributes::{ArgumentOptions, Attribute, AttributeItem, AttributeSet};

/// The attributes before an item as they are written, and the options of those that are `arg`s.
#[derive(Drop)]
pub(crate) struct KnownAttributes<'src> {
    pub(crate) items: Vec<AttributeItem<'src>>,
    pub(crate) options: Vec<ArgumentOptions<'src>>,
}

/// The attributes before an item in their order, and the options of those that are `arg`s as they
/// are written.
#[derive(Drop)]
pub(crate) struct OrderedAttributes<'src> {
    pub(crate) attributes: AttributeSet<'src>,
    pub(crate) options: Vec<ArgumentOptions<'src>>,
}

/// Puts what is given after the others.
fn push_given<T: Drop>(list: &mut Vec<T>, given: Option<T>) -> Result<(), AllocError>
    ensures { OnOk result (list.new.items ≡ list.old.items ++ cons_option given []) }
{
    match given {
        Some(item) => {
            list.push(item)?;
            Ok(())
        }
        None => Ok(()),
    }
}

/// Puts what is given after the others of its list.
fn push_both<A: Drop, O: Drop>(
    attributes: &mut Vec<A>,
    options: &mut Vec<O>,
    attribute: Option<A>,
    option: Option<O>,
) -> Result<(), AllocError>
    ensures attributes { OnOk result (attributes.new.items ≡ attributes.old.items ++ cons_option attribute []) }
    ensures options { OnOk result (options.new.items ≡ options.old.items ++ cons_option option []) }
{
    let pushed = push_given(attributes, attribute);
    let (option, _pushed) = both(option, pushed)?;
    push_given(options, option)
}

/// The attribute with its name.
fn named<'src>(
    alloc: Global,
    attribute: Attribute<'src>,
    name: Name<'src>,
) -> Result<Option<AttributeItem<'src>>, AllocError>
    ensures { IfOk result (λ item. option_map attribute_in item ≡ Some (attribute.entry, name.entry)) }
{
    let item = AttributeItem::new(alloc, attribute, name)?;
    Ok(Some(item))
}

/// The attribute with its name, if it is one.
fn item<'src>(
    alloc: Global,
    attribute: Option<Attribute<'src>>,
    name: Name<'src>,
) -> Result<Option<AttributeItem<'src>>, AllocError>
    ensures { IfOk result (λ item. option_map attribute_in item ≡ with_name name.entry attribute.entry) }
{
    match attribute {
        Some(attribute) => named(alloc, attribute, name),
        None => Ok(None),
    }
}

/// Puts the attribute and its options after the others.
#[tactic(auto, using(crate::proofs::Ordered::seen_given))]
fn add<'src>(
    alloc: Global,
    known: &mut KnownAttributes<'src>,
    read: AttributeRead<'src>,
) -> Result<(), AllocError>
    ensures attributes { OnOk result (map attribute_in known.new.items.items ≡ map attribute_in known.old.items.items ++ cons_option (with_name read.entry.name read.entry.attribute) []) }
    ensures options { OnOk result (known.new.options.items ≡ known.old.options.items ++ cons_option read.entry.options []) }
{
    let AttributeRead {
        attribute,
        name,
        options,
    } = read;
    let item = item(alloc, attribute, name);
    let (options, item) = both(options, item)?;
    push_both(&mut known.items, &mut known.options, item, options)
}

/// The attributes that are known, and the options of those that are `arg`s. Refused only where
/// memory is.
fn split<'src>(
    alloc: Global,
    reads: Vec<AttributeRead<'src>>,
) -> Result<KnownAttributes<'src>, AllocError>
    ensures shapes { IfOk result (λ s. map item_shape s.items.items ≡ known (read_shapes reads.entry.items)) }
    ensures whole { (origin : Origin) → AreWholeReads origin reads.entry.items → IfOk result (AreWholeKnown origin) }
{
    let mut known = KnownAttributes {
        items: Vec::new(alloc),
        options: Vec::new(alloc),
    };
    for read in reads {
        add(alloc, &mut known, read)?;
    }
    Ok(known)
}

/// The attributes in their order.
fn put_in_order<'src>(known: KnownAttributes<'src>) -> Result<OrderedAttributes<'src>, AllocError>
    ensures shapes { IfOk result (λ s. shapes_in s.attributes ≡ in_order (map item_shape known.entry.items.items)) }
    ensures whole { (origin : Origin) → AreWholeKnown origin known.entry → IfOk result (AreWholeOrdered origin (map item_shape known.entry.items.items)) }
{
    let KnownAttributes { items, options } = known;
    let attributes = AttributeSet::from_items(items);
    let (options, attributes) = both(options, attributes)?;
    Ok(OrderedAttributes {
        attributes,
        options,
    })
}

/// The attributes that are known, in their order, and the options of those that are `arg`s. Refused
/// only where memory is.
pub(crate) fn ordered<'src>(
    alloc: Global,
    reads: Vec<AttributeRead<'src>>,
) -> Result<OrderedAttributes<'src>, AllocError>
    ensures shapes { IfOk result (λ s. shapes_in s.attributes ≡ in_order (known (read_shapes reads.entry.items))) }
    ensures whole { (origin : Origin) → AreWholeReads origin reads.entry.items → IfOk result (AreWholeOrdered origin (known (read_shapes reads.entry.items))) }
{
    let known = split(alloc, reads)?;
    put_in_order(known)
}
