//! Numbers for the variables of attributes.
ghost use Rattle.std.specs.Prelude.{◌≡◌, map};
ghost use Rattle.tree_attributes.specs.Sets.Numbering.{AreNumberedItems};
ghost use Rattle.tree_attributes.specs.Sets.Sets.{items_of, written_item};
ghost use Rattle.tree_items.specs.Resolving.{number_for};

use crate::variables::context::ExpressionContext;
use crate::variables::resolving::Scope;
use tree_attributes::AttributeSet;

/// Gives each variable in the expressions of these attributes the context's number for its name, or
/// the environment's in an `env`, else the bindings' number, else none. Nothing else changes. Takes no
/// memory.
pub fn resolve_attributes<'a, 'src>(
    attributes: &mut AttributeSet,
    context: &'a ExpressionContext<'src>,
    environment: &'a ExpressionContext<'src>,
    bindings: &'a ExpressionContext<'src>,
)
    ensures written { map written_item (items_of attributes.new) ≡ map written_item (items_of attributes.old) }
    ensures numbered { AreNumberedItems (number_for context.now bindings.now) (number_for environment.now bindings.now) (items_of attributes.old) (items_of attributes.new) }
{
    let inside = Scope { context, bindings };
    let outside = Scope {
        context: environment,
        bindings,
    };
    attributes.number_variables(&inside, &outside);
}
