//! What the arguments of an attribute make of it.
ghost use Rattle.std.specs.Prelude.{◌≡◌, IfOk, IfSome, Some, option_map, true};
ghost use Rattle.std.specs.Result.{result_map_both};
ghost use Rattle.tree_attributes.specs.Attributes.{attribute_shape, options_shape, with_options};
ghost use Rattle.tree_attributes.specs.Forms.{form_of, takes};
ghost use Rattle.tree_attributes.specs.declared.attribute.AttributeKind.TheVariants.{Arg};
ghost use Rattle.parse_expressions.specs.Literals.{Origin};
ghost use Rattle.parse_attributes.specs.Arguments.{count, made, sort_of};
ghost use Rattle.parse_attributes.specs.Cooked.{AreCookedOptions, IsCookedAttribute};
ghost use Rattle.parse_attributes.specs.Held.{IsCookedArguments, arguments_shape, is_of_sort};
ghost use Rattle.parse_attributes.specs.Seen.{options_in};

use crate::argument_options::options_of;
use crate::arguments::ArgumentsRead;
use std::alloc::{AllocError, Global};
use tree_attributes::{
    ArgumentOptions, Attribute, AttributeKind, with_expressions, with_options, with_strings,
    without_arguments,
};

/// `arg` with these options, if they may stand together.
fn made_of_options<'src>(
    alloc: Global,
    options: Option<ArgumentOptions<'src>>,
) -> Result<Option<Attribute<'src>>, AllocError>
    ensures shape { IfOk result (λ a. option_map attribute_shape a ≡ option_map (λ o. with_options (options_shape o)) options.entry) }
    ensures cooked { (origin : Origin) → IfSome options.entry (AreCookedOptions origin) → IfOk result (λ a. IfSome a (IsCookedAttribute origin)) }
{
    match options {
        Some(options) => with_options(alloc, options).map(Some),
        None => Ok(None),
    }
}

/// The attribute that was made.
fn optional<'src>(
    made: Result<Attribute<'src>, AllocError>,
) -> Result<Option<Attribute<'src>>, AllocError>
    ensures { result ≡ result_map_both (λ a. Some a) (λ e. e) made.entry }
{
    match made {
        Ok(attribute) => Ok(Some(attribute)),
        Err(refused) => Err(refused),
    }
}

impl<'src> ArgumentsRead<'src> {
    /// The attribute with these arguments, as many as it takes and of its form; none where its
    /// options may not stand together, or one is not known. Refused where memory runs out.
    pub(crate) fn made(
        self,
        alloc: Global,
        kind: AttributeKind,
    ) -> Result<Option<Attribute<'src>>, AllocError>
        requires sort { is_of_sort (sort_of (form_of kind)) (arguments_shape self) ≡ true }
        requires taken { takes (form_of kind) (count (arguments_shape self)) ≡ true }
        ensures shape { (origin : Origin) → IsCookedArguments origin self.entry → IfOk result (λ a. option_map attribute_shape a ≡ made origin.expansion kind (arguments_shape self.entry)) }
        ensures cooked { (origin : Origin) → IsCookedArguments origin self.entry → IfOk result (λ a. IfSome a (IsCookedAttribute origin)) }
    {
        match self {
            ArgumentsRead::Nothing => Ok(Some(without_arguments(kind))),
            ArgumentsRead::Strings { first, others } => Ok(Some(with_strings(kind, first, others))),
            ArgumentsRead::Expressions { first, others } => {
                optional(with_expressions(alloc, kind, first, others))
            }
            ArgumentsRead::Parameter { name, options } => {
                made_of_options(alloc, options_of(name, options))
            }
        }
    }

    /// What the arguments say of a parameter, if they are those of an `arg`.
    pub(crate) fn parameter_options(self) -> Option<ArgumentOptions<'src>>
        ensures shape { (origin : Origin) → IsCookedArguments origin self.entry → option_map options_shape result ≡ options_in (made origin.expansion Arg (arguments_shape self.entry)) }
        ensures cooked { (origin : Origin) → IsCookedArguments origin self.entry → IfSome result (AreCookedOptions origin) }
    {
        match self {
            ArgumentsRead::Parameter { name, options } => options_of(name, options),
            ArgumentsRead::Nothing => None,
            ArgumentsRead::Strings {
                first: _first,
                others: _others,
            } => None,
            ArgumentsRead::Expressions {
                first: _first,
                others: _others,
            } => None,
        }
    }
}
