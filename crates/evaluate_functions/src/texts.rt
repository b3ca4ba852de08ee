//! Functions that leave a part of a text, or make a text of others.
ghost use Rattle.std.specs.Prelude.{◌≡◌, ◌∷◌, [], IfOk, option_map};
ghost use Rattle.std.specs.List.{flat_map};
ghost use Rattle.tree_expressions.specs.Cutting as cutting;
ghost use Rattle.just_value.specs.Uris.{uri_byte};
ghost use Rattle.evaluate_functions.specs.Functions.{characters_of, replaced as spec_replaced, split_at, without_all_backs, without_all_fronts, words_of};
ghost use Rattle.evaluate_functions.specs.Functions as spec;

use crate::function::Function;
use just_value::{Value, encode_uri_component};
use std::alloc::{AllocError, Global};

/// The text without the white space at the ends that the function names; none where it is no such
/// function.
pub fn trimmed<'a>(function: Function, text: &'a str) -> Option<&'a str>
    ensures { option_map (λ part. part.now) result ≡ spec.trimmed function text.now }
{
    match function {
        Function::Trim => Some(text.trim()),
        Function::TrimEnd => Some(text.trim_end()),
        Function::TrimStart => Some(text.trim_start()),
        _ => None,
    }
}

/// The text without the mark at the end that the function names, once or as often as it stands
/// there; none where it is no such function.
pub fn stripped<'a>(function: Function, text: &'a str, mark: &str) -> Option<&'a str>
    ensures { option_map (λ part. part.now) result ≡ spec.stripped function mark.now text.now }
{
    match function {
        Function::TrimEndMatch => Some(without_suffix(text, mark)),
        Function::TrimEndMatches => Some(without_suffixes(text, mark)),
        Function::TrimStartMatch => Some(without_prefix(text, mark)),
        Function::TrimStartMatches => Some(without_prefixes(text, mark)),
        _ => None,
    }
}

/// The text without the mark at its front, if that stands there.
fn without_prefix<'a>(text: &'a str, mark: &str) -> &'a str
    ensures { result.now ≡ cutting.without_front mark.now text.now }
{
    text.strip_prefix(mark).unwrap_or(text)
}

/// The text without the mark at its end, if that stands there.
fn without_suffix<'a>(text: &'a str, mark: &str) -> &'a str
    ensures { result.now ≡ cutting.without_back mark.now text.now }
{
    text.strip_suffix(mark).unwrap_or(text)
}

/// The text without the mark at its front, as often as it stands there.
fn without_prefixes<'a>(text: &'a str, mark: &str) -> &'a str
    ensures { result.now ≡ without_all_fronts mark.now text.now }
{
    text.trim_start_matches(mark)
}

/// The text without the mark at its end, as often as it stands there.
fn without_suffixes<'a>(text: &'a str, mark: &str) -> &'a str
    ensures { result.now ≡ without_all_backs mark.now text.now }
{
    text.trim_end_matches(mark)
}

/// The text with another in place of each match.
pub fn replaced(alloc: Global, text: &str, from: &str, to: &str) -> Result<Value, AllocError>
    ensures { IfOk result (λ v. v ≡ spec_replaced from.now to.now text.now ∷ []) }
{
    let text = text.replace(alloc, from, to)?;
    Value::from_string(alloc, text)
}

/// The text as a component of a URI.
pub fn encoded(alloc: Global, text: &str) -> Result<Value, AllocError>
    ensures { IfOk result (λ v. v ≡ flat_map uri_byte text.now ∷ []) }
{
    let text = encode_uri_component(alloc, text)?;
    Value::from_string(alloc, text)
}

/// The words of the text.
pub fn words(alloc: Global, text: &str) -> Result<Value, AllocError>
    ensures { IfOk result (λ v. v ≡ words_of text.now) }
{
    let mut value = Value::new(alloc);
    for word in text.split_whitespace() {
        value.push(String::from_str(alloc, word)?)?;
    }
    Ok(value)
}

/// The characters of the text.
pub fn characters(alloc: Global, text: &str) -> Result<Value, AllocError>
    ensures { IfOk result (λ v. v ≡ characters_of text.now) }
{
    let mut value = Value::new(alloc);
    for character in text.chars() {
        let mut element = String::new(alloc);
        element.push(character)?;
        value.push(element)?;
    }
    Ok(value)
}

/// The parts of the text around the separator; its characters where that is empty.
pub fn split(alloc: Global, text: &str, separator: &str) -> Result<Value, AllocError>
    ensures { IfOk result (λ v. v ≡ split_at separator.now text.now) }
{
    if separator.is_empty() {
        return characters(alloc, text);
    }
    let mut value = Value::new(alloc);
    for part in text.split(separator) {
        value.push(String::from_str(alloc, part)?)?;
    }
    Ok(value)
}
