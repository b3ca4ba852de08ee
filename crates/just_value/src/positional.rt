//! Overrides, a search directory and arguments among the words of a call.
ghost use Rattle.std.specs.Prelude.{◌≡◌, ◌++◌, true, false, map, take, drop, Some, None, IfOk, MatchOption, if◌then◌else◌};
ghost use Rattle.std.specs.String.{string_bytes};
ghost use Rattle.std.specs.List.{list_any};
ghost use Rattle.std.specs.Option.{option_to_list};
ghost use Rattle.just_value.specs.Words.{split, leading, behind, opening, unless_empty, is_override, override_of, is_slash, slash_end};

use just_text::{Sequence, Text};
use std::alloc::{AllocError, Global};

/// A value for a variable in place of the justfile's.
#[derive(Debug, Drop, PartialEq, Eq)]
pub struct Override {
    pub name: Text,
    pub value: Text,
}

/// The words of a call by what they are for.
#[derive(Debug, Drop, PartialEq, Eq)]
pub struct Positional {
    /// Names of recipes and what they are given.
    pub arguments: Sequence<Text>,
    /// In their order.
    pub overrides: Sequence<Override>,
    /// The folder that the justfile is sought from: `.`, `..`, or what ends in `/`.
    pub search_directory: Option<Text>,
}

/// What the first word gives that is no override.
#[derive(Drop)]
struct Opening {
    directory: Option<Text>,
    argument: Option<Text>,
}

impl Positional {
    /// Splits the words. Before the first search directory or argument a word with `=` is an
    /// override, cut at its first `=`. Then `.` and `..` are the search directory, a word with `/`
    /// is cut after its last one into the search directory and, unless it is empty, the first
    /// argument, and any other word is the first argument. All words after are arguments. Refused
    /// only where memory is.
    pub fn from_values(alloc: Global, values: &[String]) -> Result<Positional, AllocError>
        ensures { IfOk result (λ p. p ≡ split (map string_bytes values.now)) }
    {
        let overrides = leading_overrides(alloc, values)?;
        let rest = &values[overrides.len()..];
        Positional::from_rest(alloc, overrides, rest)
    }

    /// Splits the words from the first that is no override.
    fn from_rest(
        alloc: Global,
        overrides: Sequence<Override>,
        words: &[String],
    ) -> Result<Positional, AllocError>
        ensures { IfOk result (λ p. p ≡ behind overrides (map string_bytes words.now)) }
    {
        let Some((first, others)) = words.split_first() else {
            return Ok(Positional {
                arguments: Sequence::new(alloc),
                overrides,
                search_directory: None,
            });
        };
        let Opening {
            directory,
            argument,
        } = read_opening(alloc, first.as_str())?;
        Ok(Positional {
            arguments: arguments(alloc, argument, others)?,
            overrides,
            search_directory: directory,
        })
    }
}

/// The overrides that the words begin with.
fn leading_overrides(alloc: Global, values: &[String]) -> Result<Sequence<Override>, AllocError>
    ensures { IfOk result (λ o. o ≡ leading (map string_bytes values.now)) }
{
    let mut overrides = Vec::new(alloc);
    for word in values {
        match read_override(alloc, word.as_str())? {
            Some(found) => overrides.push(found)?,
            None => return Ok(Sequence::from_vec(overrides)),
        }
    }
    Ok(Sequence::from_vec(overrides))
}

/// The override that a word is, if it is one.
fn read_override(alloc: Global, word: &str) -> Result<Option<Override>, AllocError>
    ensures { IfOk result (λ o. o ≡ (if is_override word.now then Some (override_of word.now) else None)) }
{
    let Some((name, value)) = word.split_once('=') else {
        return Ok(None);
    };
    Ok(Some(Override {
        name: Text::from_text(alloc, name)?,
        value: Text::from_text(alloc, value)?,
    }))
}

/// What a word gives that is no override.
fn read_opening(alloc: Global, word: &str) -> Result<Opening, AllocError>
    ensures { IfOk result (λ o. o ≡ opening word.now) }
{
    if word == "." || word == ".." {
        return Ok(Opening {
            directory: Some(Text::from_text(alloc, word)?),
            argument: None,
        });
    }
    let Some((directory, rest)) = cut_behind_slash(word) else {
        return Ok(Opening {
            directory: None,
            argument: Some(Text::from_text(alloc, word)?),
        });
    };
    Ok(Opening {
        directory: Some(Text::from_text(alloc, directory)?),
        argument: text_unless_empty(alloc, rest)?,
    })
}

/// What ends in the last `/`, and what is after it.
fn cut_behind_slash(word: &str) -> Option<(&str, &str)>
    ensures { MatchOption result (list_any is_slash word.now ≡ false) (λ x. (list_any is_slash word.now ≡ true) × (x.0.now ≡ take (slash_end word.now) word.now) × (x.1.now ≡ drop (slash_end word.now) word.now)) }
{
    let Some(slash) = word.rfind('/') else {
        return None;
    };
    Some((&word[..slash + 1], &word[slash + 1..]))
}

/// A copy of the text, unless it is empty.
fn text_unless_empty(alloc: Global, text: &str) -> Result<Option<Text>, AllocError>
    ensures { IfOk result (λ t. t ≡ unless_empty text.now) }
{
    if text.is_empty() {
        return Ok(None);
    }
    Ok(Some(Text::from_text(alloc, text)?))
}

/// The first argument, if there is one, and copies of the others.
fn arguments(
    alloc: Global,
    first: Option<Text>,
    others: &[String],
) -> Result<Sequence<Text>, AllocError>
    ensures { IfOk result (λ s. s ≡ option_to_list first ++ map string_bytes others.now) }
{
    let mut texts = Vec::new(alloc);
    if let Some(first) = first {
        texts.push(first)?;
    }
    for word in others {
        texts.push(Text::from_text(alloc, word.as_str())?)?;
    }
    Ok(Sequence::from_vec(texts))
}
