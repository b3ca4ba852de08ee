//! An option put among the others of its parameter.
ghost use Rattle.std.specs.Prelude.{◌≡◌, IfSome, Some, option_map};
ghost use Rattle.tree_attributes.specs.Attributes.{long_shape, options_shape};
ghost use Rattle.tree_expressions.specs.Shape.{written};
ghost use Rattle.parse_expressions.specs.Literals.{Expansion, Origin};
ghost use Rattle.parse_expressions.specs.Strings.{IsCookedString};
ghost use Rattle.parse_attributes.specs.Cooked.{AreCookedOptions, IsCookedName};
ghost use Rattle.parse_attributes.specs.Held.{IsCookedOption, added, option_shape};

use crate::parameter_option::OptionRead;
use tree_attributes::{ArgumentOptions, LongName};
use tree_expressions::StringLiteral;

/// The name after two dashes.
fn long_name<'src>(name: Option<StringLiteral<'src>>) -> LongName<'src>
    ensures shape { long_shape result ≡ Some (option_map written name.entry) }
    ensures cooked { (expansion : Expansion) → IfSome name.entry (IsCookedString expansion) → IsCookedName expansion result }
{
    match name {
        Some(name) => LongName::Named(name),
        None => LongName::OfParameter,
    }
}

/// Puts a value there, in place of what was there.
fn put<T: Drop>(place: &mut T, value: T)
    ensures { place.new ≡ value }
{
    *place = value;
}

impl<'src> OptionRead<'src> {
    /// Puts the option among these, in place of one of its kind.
    pub(crate) fn add_to(self, options: &mut ArgumentOptions<'src>)
        ensures shape { options_shape options.new ≡ added (options_shape options.old) (option_shape self.entry) }
        ensures cooked { (origin : Origin) → AreCookedOptions origin options.old → IsCookedOption origin self.entry → AreCookedOptions origin options.new }
    {
        match self {
            OptionRead::Flag => options.flag = true,
            OptionRead::Multiple => options.multiple = true,
            OptionRead::Long(name) => put(&mut options.long, long_name(name)),
            OptionRead::Help(text) => put(&mut options.help, Some(text)),
            OptionRead::Max(text) => put(&mut options.max, Some(text)),
            OptionRead::Min(text) => put(&mut options.min, Some(text)),
            OptionRead::Short(text) => put(&mut options.short, Some(text)),
            OptionRead::Value(value) => put(&mut options.value, Some(value)),
        }
    }
}
