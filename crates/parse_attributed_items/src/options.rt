//! What an `arg` makes of a parameter.
ghost use Rattle.std.specs.Prelude.{◌≡◌, ◌∷◌, IfSome, List, Some, [], map, true};
ghost use Rattle.std.specs.List.{All};
ghost use Rattle.std.specs.Option.{option_map};
ghost use Rattle.tree_attributes.specs.Attributes.{OptionsShape, options_shape};
ghost use Rattle.tree_items.specs.Recipes.{parameter_shapes};
ghost use Rattle.parse_expressions.specs.Literals.{Origin};
ghost use Rattle.parse_attributes.specs.Cooked.{AreCookedOptions};
ghost use Rattle.parse_attributes.specs.Options.{is_count, is_short};
ghost use Rattle.parse_recipes.specs.Plain.{ArePlain};
ghost use Rattle.parse_attributed_items.specs.Names.{cooked_long_name};
ghost use Rattle.parse_attributed_items.specs.Options.{AreValuesCooked, HaveOptions, IsValueCooked, bare, bare_all, meant, number_of, options_in};
ghost use Rattle.parse_attributed_items.specs.Places.{HasPlaces};
ghost use Rattle.parse_attributed_items.specs.Rules.{are_distinct, names_of};
ghost use Rattle.parse_attributed_items.specs.Whole.{AreWholeOptions};

use crate::places::Places;
use just_text::Text;
use tree_attributes::{ArgumentOptions, LongName};
use tree_expressions::StringLiteral;
use tree_items::Parameter;

/// Puts a value there, in place of what was there.
fn set<T: Drop>(place: &mut T, value: T)
    ensures { place.new ≡ value }
{
    *place = value;
}

/// The number that one to four digits write.
fn number(digits: &str) -> Option<u16>
    ensures { is_count digits.now ≡ true → result ≡ Some (number_of digits.now) }
{
    digits.parse().ok()
}

/// The number that a string of one to four digits stands for.
fn count(digits: &Option<StringLiteral>) -> Option<u16>
    ensures { IfSome digits.now (λ s. is_count s.cooked ≡ true) → result ≡ option_map (λ s. number_of s.cooked) digits.now }
{
    match digits {
        None => None,
        Some(digits) => number(digits.cooked.as_str()),
    }
}

/// The letter or digit that the text is.
fn character(text: &str) -> Option<char>
    ensures { is_short text.now ≡ true → option_map (λ c. c ∷ []) result ≡ Some text.now }
{
    match text.as_bytes() {
        [byte] => Some(char::from(*byte)),
        _ => None,
    }
}

/// The letter or digit that a string stands for.
fn short_name(name: &Option<StringLiteral>) -> Option<char>
    ensures { IfSome name.now (λ s. is_short s.cooked ≡ true) → option_map (λ c. c ∷ []) result ≡ option_map (λ s. s.cooked) name.now }
{
    match name {
        None => None,
        Some(name) => character(name.cooked.as_str()),
    }
}

/// What a string stands for.
fn text(string: Option<StringLiteral>) -> Option<Text>
    ensures { result ≡ option_map (λ s. s.cooked) string.entry }
{
    string.map(|string| string.cooked)
}

/// The name after two dashes, of the parameter with that name.
fn long_name(long: LongName, name: StringLiteral) -> Option<Text>
    ensures { result ≡ cooked_long_name long.entry name.entry }
{
    match long {
        LongName::Absent => None,
        LongName::Named(long) => Some(long.cooked),
        LongName::OfParameter => Some(name.cooked),
    }
}

/// Gives the parameter these options, in place of all that it has.
fn give<'src>(parameter: &mut Parameter<'src>, options: ArgumentOptions<'src>)
    ensures given { (origin : Origin) → AreCookedOptions origin options.entry → AreWholeOptions origin.expansion (options_shape options.entry) → options_in parameter.new ≡ meant origin.expansion (options_shape options.entry) }
    ensures kept { bare parameter.new ≡ bare parameter.old }
    ensures cooked { (origin : Origin) → AreCookedOptions origin options.entry → IsValueCooked origin parameter.new }
{
    parameter.flag = options.flag;
    parameter.multiple = options.multiple;
    parameter.max = count(&options.max);
    parameter.min = count(&options.min);
    parameter.short = short_name(&options.short);
    set(&mut parameter.help, text(options.help));
    set(&mut parameter.long, long_name(options.long, options.name));
    set(&mut parameter.value, options.value);
}

/// Gives these options to the parameter that they are for, if there is one.
fn give_to_named<'src>(
    parameters: &mut Vec<Parameter<'src>>,
    places: &Places<'src>,
    options: ArgumentOptions<'src>,
)
    ensures given { (origin : Origin) (others : List OptionsShape) → AreCookedOptions origin options.entry → AreWholeOptions origin.expansion (options_shape options.entry)
        → HasPlaces places.now (names_of (parameter_shapes parameters.old.items)) → are_distinct (names_of (parameter_shapes parameters.old.items)) ≡ true
        → HaveOptions origin.expansion others parameters.old.items → HaveOptions origin.expansion (options_shape options.entry ∷ others) parameters.new.items }
    ensures kept { bare_all parameters.new.items ≡ bare_all parameters.old.items }
    ensures cooked { (origin : Origin) → AreCookedOptions origin options.entry → AreValuesCooked origin parameters.old.items → AreValuesCooked origin parameters.new.items }
{
    match places.get(options.name.cooked.as_str()) {
        Some(place) if place < parameters.len() => give(&mut parameters[place], options),
        _ => drop(options),
    }
}

/// The parameters with these options, each for the parameter that it names.
pub(crate) fn with_all<'src>(
    mut parameters: Vec<Parameter<'src>>,
    places: &Places<'src>,
    mut options: Vec<ArgumentOptions<'src>>,
) -> Vec<Parameter<'src>>
    ensures given { (origin : Origin) → All (AreCookedOptions origin) options.entry.items → All (AreWholeOptions origin.expansion) (map options_shape options.entry.items)
        → ArePlain parameters.entry.items → HasPlaces places.now (names_of (parameter_shapes parameters.entry.items)) → are_distinct (names_of (parameter_shapes parameters.entry.items)) ≡ true
        → HaveOptions origin.expansion (map options_shape options.entry.items) result.items }
    ensures kept { bare_all result.items ≡ bare_all parameters.entry.items }
    ensures cooked { (origin : Origin) → All (AreCookedOptions origin) options.entry.items → ArePlain parameters.entry.items → AreValuesCooked origin result.items }
{
    while let Some(last) = options.pop() {
        give_to_named(&mut parameters, places, last);
    }
    parameters
}
