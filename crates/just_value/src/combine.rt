//! Two lists of texts made one by an operator.
ghost use Rattle.std.specs.Prelude.{◌≡◌, ◌++◌, IfOk, length, map};
ghost use Rattle.std.specs.Option.{option_map};
ghost use Rattle.std.specs.String.{string_bytes};
ghost use Rattle.just_value.specs.Values as spec;

use std::alloc::{AllocError, Global};

/// What two lists give, if they go together.
pub fn combine(
    alloc: Global,
    separator: &str,
    left: &[String],
    right: &[String],
) -> Result<Option<Vec<String>>, AllocError>
    ensures { IfOk result (λ o. option_map (λ v. map string_bytes v.items) o ≡ spec.applied separator.now (map string_bytes left.now) (map string_bytes right.now)) }
{
    if left.len() == 1 && !right.is_empty() {
        let texts = before_each(alloc, separator, left[0].as_str(), right)?;
        return Ok(Some(texts));
    }
    if right.len() == 1 && !left.is_empty() {
        let texts = behind_each(alloc, separator, left, right[0].as_str())?;
        return Ok(Some(texts));
    }
    if left.len() != right.len() {
        return Ok(None);
    }
    let texts = pairwise(alloc, separator, left, right)?;
    Ok(Some(texts))
}

/// The text before each of the others.
fn before_each(
    alloc: Global,
    separator: &str,
    text: &str,
    others: &[String],
) -> Result<Vec<String>, AllocError>
    ensures { IfOk result (λ v. map string_bytes v.items ≡ spec.before_each separator.now text.now (map string_bytes others.now)) }
{
    let mut texts = Vec::new(alloc);
    for other in others {
        texts.push(separated(alloc, text, separator, other.as_str())?)?;
    }
    Ok(texts)
}

/// The text after each of the others.
fn behind_each(
    alloc: Global,
    separator: &str,
    others: &[String],
    text: &str,
) -> Result<Vec<String>, AllocError>
    ensures { IfOk result (λ v. map string_bytes v.items ≡ spec.behind_each separator.now (map string_bytes others.now) text.now) }
{
    let mut texts = Vec::new(alloc);
    for other in others {
        texts.push(separated(alloc, other.as_str(), separator, text)?)?;
    }
    Ok(texts)
}

/// Each text with the one at its place in the other list.
fn pairwise(
    alloc: Global,
    separator: &str,
    left: &[String],
    right: &[String],
) -> Result<Vec<String>, AllocError>
    requires { length left.now ≡ length right.now }
    ensures { IfOk result (λ v. map string_bytes v.items ≡ spec.pairwise separator.now (map string_bytes left.now) (map string_bytes right.now)) }
{
    let mut texts = Vec::new(alloc);
    for place in 0..left.len() {
        texts.push(separated(
            alloc,
            left[place].as_str(),
            separator,
            right[place].as_str(),
        )?)?;
    }
    Ok(texts)
}

/// Two texts with the separator between.
fn separated(alloc: Global, left: &str, separator: &str, right: &str) -> Result<String, AllocError>
    ensures { IfOk result (λ s. string_bytes s ≡ left.now ++ (separator.now ++ right.now)) }
{
    let mut text = String::from_str(alloc, left)?;
    text.push_str(separator)?;
    text.push_str(right)?;
    Ok(text)
}
