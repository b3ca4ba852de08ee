//! Attributes as the items of a set.
ghost use Rattle.std.specs.Prelude.{◌≡◌, IfOk};
ghost use Rattle.std.specs.Cmp.{partial_equiv_from_equiv, partial_order_from_own_ties, partial_order_from_total};
ghost use Rattle.std.specs.Ordering.{as_partial_cmp};
ghost use Rattle.std.specs.Cmp.Rules.{comparing};
ghost use Rattle.std.proofs.Common.{rules};
ghost use Rattle.tree_attributes.specs.Attributes.{attribute_shape};
ghost use Rattle.tree_attributes.specs.Sets.Arguments.{arguments_text};

use crate::numbering::number_attribute;
use crate::printed_arguments::PrintedArguments;
use crate::{Attribute, AttributeKind};
use just_text::{Name, Text};
use std::alloc::{AllocError, Global};
use std::cmp::Ordering;
use tree_expressions::VariableNumbers;

/// An attribute, its name where it is written, and its arguments as they are printed.
pub struct AttributeItem<'src> {
    pub attribute: Attribute<'src>,
    pub name: Name<'src>,
    arguments: Text,
    ghost printed: { arguments ≡ arguments_text (attribute_shape attribute) },
}

impl Drop for AttributeItem<'_> {
    fn drop(self) {
        let AttributeItem {
            attribute: _attribute,
            name: _name,
            arguments: _arguments,
        } = self;
    }
}

/// Prints the arguments of an attribute, without parentheses.
fn print_arguments(alloc: Global, attribute: &Attribute) -> Result<Text, AllocError>
    ensures { IfOk result (λ arguments. arguments ≡ arguments_text (attribute_shape attribute.now)) }
{
    Ok(Text::from_string(PrintedArguments(attribute).to_string(alloc)?))
}

impl<'src> AttributeItem<'src> {
    ghost use Rattle.std.specs.Prelude.{option_map};
    ghost use Rattle.tree_attributes.specs.Sets.Numbering.{IsNumberedItem};
    ghost use Rattle.tree_attributes.specs.Sets.Sets.{group_of, is_of};

    /// Prints the attribute's arguments, once and for all comparisons.
    pub fn new(
        alloc: Global,
        attribute: Attribute<'src>,
        name: Name<'src>,
    ) -> Result<AttributeItem<'src>, AllocError>
        ensures { IfOk result (λ item. (item.attribute ≡ attribute.entry) × (item.name ≡ name.entry)) }
    {
        match print_arguments(alloc, &attribute) {
            Ok(arguments) => Ok(AttributeItem {
                attribute,
                name,
                arguments,
            }),
            Err(refused) => {
                drop(attribute);
                Err(refused)
            }
        }
    }

    /// Whether the attribute is of this kind.
    #[tactic(auto, using(crate::proofs::Sets::SameKind::same_names))]
    pub(crate) fn is_of(&self, kind: AttributeKind) -> bool
        ensures { result ≡ is_of kind self.now }
    {
        self.attribute.kind() == kind
    }

    /// The text of a group.
    pub fn group(&self) -> Option<&str>
        ensures { option_map (λ group. group.now) result ≡ group_of self.now.attribute }
    {
        match &self.attribute {
            Attribute::Group(text) => Some(text.cooked.as_str()),
            _ => None,
        }
    }

    /// Gives the variables in the attribute their numbers, those of an `env` the environment's. Takes
    /// no memory.
    pub(crate) fn number_variables<N: VariableNumbers>(&mut self, numbers: &N, environment: &N)
        ensures { IsNumberedItem (N.number numbers.now) (N.number environment.now) self.old self.new }
    {
        number_attribute(&mut self.attribute, numbers, environment);
    }

    /// The attribute's arguments as they are printed, without parentheses.
    pub fn arguments(&self) -> &str
        ensures { result.now ≡ arguments_text (attribute_shape self.now.attribute) }
    {
        self.arguments.as_str()
    }
}

impl PartialEq for AttributeItem<'_> {
    ghost use Rattle.tree_attributes.specs.Sets.Order.{item_eq, item_equiv};

    ghost eq = { item_eq };

    ghost laws = { partial_equiv_from_equiv item_equiv };

    fn eq(&self, other: &Self) -> bool {
        self.attribute.name() == other.attribute.name() && self.arguments == other.arguments
    }
}

impl Eq for AttributeItem<'_> {
    ghost use Rattle.tree_attributes.specs.Sets.Order.{item_equiv};

    ghost laws = { item_equiv };
}

impl PartialOrd for AttributeItem<'_> {
    ghost use Rattle.tree_attributes.specs.Sets.Order.{item_cmp, item_ties, item_total};

    ghost partial_cmp = { as_partial_cmp item_cmp };

    ghost laws = { partial_order_from_own_ties (partial_order_from_total item_total) item_ties };

    fn partial_cmp(&self, other: &Self) -> Option<Ordering> {
        Some(self.cmp(other))
    }
}

/// By the attributes' names, then by their printed arguments; where they are written doesn't count.
impl Ord for AttributeItem<'_> {
    ghost use Rattle.tree_attributes.specs.Sets.Order.{item_cmp, item_ties, item_total};

    ghost cmp = { item_cmp };

    ghost total = { item_total };

    ghost matches_partial_cmp = { Prim.search (comparing, rules) };

    ghost matches_eq = { item_ties };

    fn cmp(&self, other: &Self) -> Ordering {
        let names = self.attribute.name().cmp(other.attribute.name());
        names.then(self.arguments.cmp(&other.arguments))
    }
}
