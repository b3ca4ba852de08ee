//! The names that `arg`s say.
ghost use Rattle.std.specs.Prelude.{◌≡◌, IfOk, List, [], is_some, map, not, ℕ};
ghost use Rattle.std.specs.List.{All};
ghost use Rattle.std.specs.Option.{option_copied};
ghost use Rattle.tree_attributes.specs.Attributes.{options_shape};
ghost use Rattle.parse_expressions.specs.Literals.{Origin};
ghost use Rattle.parse_attributes.specs.Cooked.{AreCookedOptions};
ghost use Rattle.parse_recipes.specs.Seen.{HasNames};
ghost use Rattle.parse_attributed_items.specs.Names.{are_new, is_new, name_of, with_name};
ghost use Rattle.parse_attributed_items.specs.Rules.{long_name, short_name};

use just_text::Token;
use std::alloc::{AllocError, Global};
use std::collections::BTreeSet;
use tree_attributes::{ArgumentOptions, LongName};

/// What an `arg` names.
#[derive(Clone, Copy)]
pub(crate) enum NameKind {
    /// Its parameter.
    Parameter,
    /// The parameter's option, after two dashes.
    Long,
    /// The parameter's option, after one dash.
    Short,
}

/// The name of the option after two dashes, if there is one.
fn long_name<'a>(options: &'a ArgumentOptions) -> Option<&'a str>
    ensures { (origin : Origin) → AreCookedOptions origin options.now → option_copied result ≡ long_name origin.expansion (options_shape options.now) }
{
    match &options.long {
        LongName::Absent => None,
        LongName::Named(name) => Some(name.cooked.as_str()),
        LongName::OfParameter => Some(options.name.cooked.as_str()),
    }
}

/// The name of the option after one dash, if there is one.
fn short_name<'a>(options: &'a ArgumentOptions) -> Option<&'a str>
    ensures { (origin : Origin) → AreCookedOptions origin options.now → option_copied result ≡ short_name origin.expansion (options_shape options.now) }
{
    match &options.short {
        None => None,
        Some(name) => Some(name.cooked.as_str()),
    }
}

/// The name of that kind, if the `arg` says one.
fn name_of<'a>(options: &'a ArgumentOptions, kind: NameKind) -> Option<&'a str>
    ensures { (origin : Origin) → AreCookedOptions origin options.now → option_copied result ≡ name_of origin.expansion kind (options_shape options.now) }
{
    match kind {
        NameKind::Parameter => Some(options.name.cooked.as_str()),
        NameKind::Long => long_name(options),
        NameKind::Short => short_name(options),
    }
}

/// Adds the name, if there is one, and says whether it was not there yet.
fn add<'a>(names: &mut BTreeSet<&'a str>, name: Option<&'a str>) -> Result<bool, AllocError>
    ensures new { (before : List (List ℕ)) → HasNames names.old before → IfOk result (λ new. new ≡ is_new before (option_copied name.entry)) }
    ensures names { (before : List (List ℕ)) → HasNames names.old before → IfOk result (λ _. HasNames names.new (with_name before (option_copied name.entry))) }
{
    match name {
        None => Ok(true),
        Some(name) => Ok(names.insert(name)?),
    }
}

/// The first `arg` that says the same name of that kind as an earlier one, by the token of its
/// parameter's name.
pub(crate) fn repeated<'src>(
    alloc: Global,
    options: &[ArgumentOptions<'src>],
    kind: NameKind,
) -> Result<Option<Token<'src>>, AllocError>
    ensures { (origin : Origin) → All (AreCookedOptions origin) options.now → IfOk result (λ token. is_some token ≡ not (are_new (name_of origin.expansion kind) [] (map options_shape options.now))) }
{
    let mut names = BTreeSet::new(alloc);
    for options in options {
        if !add(&mut names, name_of(options, kind))? {
            return Ok(Some(options.name.token));
        }
    }
    Ok(None)
}
