//! Which items may have attributes.
ghost use Rattle.std.specs.Prelude.{◌≡◌};
ghost use Rattle.parse_attributes.specs.Seen.{read_shapes};
ghost use Rattle.parse_attributed_items.specs.Fitting as spec;

use parse_attributes::AttributeRead;
use tree_attributes::ItemKind;

/// Whether items of that kind may have attributes.
fn takes_attributes(kind: ItemKind) -> bool
    ensures { result ≡ spec.takes_attributes kind }
{
    match kind {
        ItemKind::Alias
        | ItemKind::Assignment
        | ItemKind::Module
        | ItemKind::Recipe
        | ItemKind::Set => true,
        _ => false,
    }
}

/// Whether an item of that kind may stand after the attributes, whatever they are.
pub(crate) fn may_stand(attributes: &[AttributeRead], kind: ItemKind) -> bool
    ensures { result ≡ spec.may_stand (read_shapes attributes.now) kind }
{
    attributes.is_empty() || takes_attributes(kind)
}
