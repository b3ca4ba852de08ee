//! What the options of `arg` say of a parameter.
ghost use Rattle.std.specs.Prelude.{◌≡◌, IfSome, map, option_map};
ghost use Rattle.std.specs.List.{All, list_all};
ghost use Rattle.tree_attributes.specs.Attributes.{options_shape};
ghost use Rattle.tree_expressions.specs.Shape.{written};
ghost use Rattle.parse_expressions.specs.Literals.{Expansion, Origin};
ghost use Rattle.parse_expressions.specs.Strings.{IsCookedString};
ghost use Rattle.parse_attributes.specs.Cooked.{AreCookedOptions};
ghost use Rattle.parse_attributes.specs.Held.{IsCookedGiven, IsCookedOption, given_shape, may_add, option_shape, with_given};
ghost use Rattle.parse_attributes.specs.Options.{is_count, is_digit, is_short, is_whole, options_of, with_all, with_option, without_options};

use crate::parameter_option::OptionRead;
use tree_attributes::{ArgumentOptions, LongName};
use tree_expressions::StringLiteral;

/// Whether the text is one ASCII letter or digit.
fn is_short(text: &str) -> bool
    ensures { result ≡ is_short text.now }
{
    match text.as_bytes() {
        [byte] => byte.is_ascii_alphanumeric(),
        _ => false,
    }
}

/// Whether these are ASCII digits.
fn are_digits(text: &[u8]) -> bool
    ensures { result ≡ list_all is_digit text.now }
{
    text.iter().all(|byte| byte.is_ascii_digit())
}

/// Whether the text is one to four digits.
fn is_count(text: &str) -> bool
    ensures { result ≡ is_count text.now }
{
    if text.is_empty() || 4 < text.len() {
        return false;
    }
    are_digits(text.as_bytes())
}

/// A parameter without options.
fn without_options<'src>(name: StringLiteral<'src>) -> ArgumentOptions<'src>
    ensures shape { options_shape result ≡ without_options (written name.entry) }
    ensures cooked { (origin : Origin) → IsCookedString origin.expansion name.entry → AreCookedOptions origin result }
{
    ArgumentOptions {
        flag: false,
        help: None,
        long: LongName::Absent,
        max: None,
        min: None,
        multiple: false,
        name,
        short: None,
        value: None,
    }
}

/// Whether the option is not there already, and its text is one that it may have.
fn may_add(options: &ArgumentOptions, option: &OptionRead) -> bool
    ensures { (origin : Origin) → IsCookedOption origin option.now → result ≡ may_add origin.expansion (options_shape options.now) (option_shape option.now) }
{
    match option {
        OptionRead::Flag => !options.flag,
        OptionRead::Multiple => !options.multiple,
        OptionRead::Long(_) => matches!(options.long, LongName::Absent),
        OptionRead::Help(_) => options.help.is_none(),
        OptionRead::Max(text) => options.max.is_none() && is_count(text.cooked.as_str()),
        OptionRead::Min(text) => options.min.is_none() && is_count(text.cooked.as_str()),
        OptionRead::Short(text) => options.short.is_none() && is_short(text.cooked.as_str()),
        OptionRead::Value(_) => options.value.is_none(),
    }
}

/// The options with that one, if it may be added.
fn with_option<'src>(
    mut options: ArgumentOptions<'src>,
    option: OptionRead<'src>,
) -> Option<ArgumentOptions<'src>>
    ensures shape { (origin : Origin) → IsCookedOption origin option.entry → option_map options_shape result ≡ with_option origin.expansion (options_shape options.entry) (option_shape option.entry) }
    ensures cooked { (origin : Origin) → AreCookedOptions origin options.entry → IsCookedOption origin option.entry → IfSome result (AreCookedOptions origin) }
{
    if may_add(&options, &option) {
        option.add_to(&mut options);
        Some(options)
    } else {
        drop(options);
        drop(option);
        None
    }
}

/// The options with that one, if it is known and may be added.
fn with_given<'src>(
    options: ArgumentOptions<'src>,
    given: Option<OptionRead<'src>>,
) -> Option<ArgumentOptions<'src>>
    ensures shape { (origin : Origin) → IsCookedGiven origin given.entry → option_map options_shape result ≡ with_given origin.expansion (options_shape options.entry) (given_shape given.entry) }
    ensures cooked { (origin : Origin) → AreCookedOptions origin options.entry → IsCookedGiven origin given.entry → IfSome result (AreCookedOptions origin) }
{
    match given {
        Some(option) => with_option(options, option),
        None => {
            drop(options);
            None
        }
    }
}

/// The parameter with that name and these options, if each is known and may be there.
fn with_all<'src>(
    name: StringLiteral<'src>,
    given: Vec<Option<OptionRead<'src>>>,
) -> Option<ArgumentOptions<'src>>
    ensures shape { (origin : Origin) → All (IsCookedGiven origin) given.entry.items → option_map options_shape result ≡ with_all origin.expansion (without_options (written name.entry)) (map given_shape given.entry.items) }
    ensures cooked { (origin : Origin) → IsCookedString origin.expansion name.entry → All (IsCookedGiven origin) given.entry.items → IfSome result (AreCookedOptions origin) }
{
    let mut options = without_options(name);
    for option in given {
        options = with_given(options, option)?;
    }
    Some(options)
}

/// Whether the options may stand together: only an option, which has a name of its own, may be a
/// flag, may stand more than once, and may have a value.
fn is_whole(options: &ArgumentOptions) -> bool
    ensures { (expansion : Expansion) → result ≡ is_whole expansion (options_shape options.now) }
{
    !matches!(options.long, LongName::Absent)
        || options.short.is_some()
        || !(options.flag || options.multiple || options.value.is_some())
}

/// What the options say of the parameter with that name, if they may stand together.
pub(crate) fn options_of<'src>(
    name: StringLiteral<'src>,
    given: Vec<Option<OptionRead<'src>>>,
) -> Option<ArgumentOptions<'src>>
    ensures shape { (origin : Origin) → All (IsCookedGiven origin) given.entry.items → option_map options_shape result ≡ options_of origin.expansion (written name.entry) (map given_shape given.entry.items) }
    ensures cooked { (origin : Origin) → IsCookedString origin.expansion name.entry → All (IsCookedGiven origin) given.entry.items → IfSome result (AreCookedOptions origin) }
{
    let options = with_all(name, given)?;
    if is_whole(&options) {
        Some(options)
    } else {
        drop(options);
        None
    }
}
