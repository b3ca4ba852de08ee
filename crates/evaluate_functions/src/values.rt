//! Functions on whole values.
ghost use Rattle.std.specs.Prelude.{◌≡◌, ◌∷◌, ◌++◌, [], IfOk, OnOk, encode_utf8, length as count, map};
ghost use Rattle.std.specs.List.{flat_map};
ghost use Rattle.std.specs.Fmt.{decimal};
ghost use Rattle.std.specs.String.{string_bytes};
ghost use Rattle.just_value.specs.Values.{joined, value_text};
ghost use Rattle.evaluate_functions.specs.Functions.{Answers, bool_of, said_of, joined_by, each_or_words, words_of};
ghost use Rattle.evaluate_functions.specs.Values as spec;

use crate::fault::FunctionFault;
use crate::texts;
use just_text::Text;
use just_value::Value;
use std::alloc::{AllocError, Global};

/// A boolean value under `lists`, else the text `true` or `false`.
pub fn boolean(alloc: Global, lists: bool, truth: bool) -> Result<Value, AllocError>
    ensures { IfOk result (λ v. v ≡ spec.boolean lists truth) }
{
    if lists {
        Value::from_bool(alloc, truth)
    } else {
        Value::from_text(alloc, if truth { "true" } else { "false" })
    }
}

/// What the text says: whether it is true; none where it says neither.
fn truth_of(text: &str) -> Option<bool>
    ensures { result ≡ spec.said text.now }
{
    match text {
        "" | "0" | "false" => Some(false),
        "1" | "true" => Some(true),
        _ => None,
    }
}

/// What the text says as a boolean value. Refused where it says neither.
fn bool_of_text(alloc: Global, lists: bool, text: &str) -> Result<Value, FunctionFault>
    ensures { Answers (said_of lists text.now (spec.said text.now)) result }
{
    if let Some(truth) = truth_of(text) {
        return Ok(boolean(alloc, lists, truth)?);
    }
    let message = format!(in alloc; "`{text}` is not a valid boolean string")?;
    Err(FunctionFault::Message(Text::from_string(message)))
}

/// What the value says as a boolean value. Refused where it has more than one element, or one that
/// says neither.
pub fn bool_value(alloc: Global, lists: bool, value: &Value) -> Result<Value, FunctionFault>
    ensures { Answers (bool_of lists value.now) result }
{
    match value.elements() {
        [] => Ok(boolean(alloc, lists, false)?),
        [element] => bool_of_text(alloc, lists, element.as_str()),
        _ => Err(FunctionFault::from_text(
            alloc,
            "multi-element lists cannot be converted into booleans",
        )),
    }
}

/// The elements with the separator between two.
pub fn joined_list(alloc: Global, value: &Value, separator: &str) -> Result<Value, AllocError>
    ensures { IfOk result (λ v. v ≡ joined_by separator.now value.now ∷ []) }
{
    let text = value.elements().join(alloc, separator)?;
    Value::from_string(alloc, text)
}

/// The number of elements, in decimal.
pub fn length(alloc: Global, value: &Value) -> Result<Value, AllocError>
    ensures { IfOk result (λ v. v ≡ decimal (count value.now) ∷ []) }
{
    let length = value.len();
    let text = format!(in alloc; "{length}")?;
    Value::from_string(alloc, text)
}

/// The value as it is printed.
pub fn shown(alloc: Global, value: &Value) -> Result<Value, AllocError>
    ensures { IfOk result (λ v. v ≡ value_text value.now ∷ []) }
{
    let text = format!(in alloc; "{value}")?;
    Value::from_string(alloc, text)
}

/// Writes the character as it stands between single quotes of a shell.
#[tactic(auto, using(crate::proofs::Quotes::shell_character))]
fn push_quoted(quoted: &mut String, character: char) -> Result<(), AllocError>
    ensures { OnOk result (string_bytes quoted.new ≡ string_bytes quoted.old ++ flat_map spec.shell_byte (encode_utf8 character)) }
{
    if character == '\'' {
        quoted.push_str("'\\''")
    } else {
        quoted.push(character)
    }
}

/// The text between two single quotes, with each single quote in it as `'\''`.
fn quoted_text(alloc: Global, text: &str) -> Result<String, AllocError>
    ensures { IfOk result (λ s. string_bytes s ≡ spec.quoted text.now) }
{
    let mut quoted = String::from_str(alloc, "'")?;
    for character in text.chars() {
        push_quoted(&mut quoted, character)?;
    }
    quoted.push('\'')?;
    Ok(quoted)
}

/// Each element as one word of a shell.
pub fn quoted(alloc: Global, value: &Value) -> Result<Value, AllocError>
    ensures { IfOk result (λ v. v ≡ map spec.quoted value.now) }
{
    let mut quoted = Value::new(alloc);
    for element in value.elements() {
        quoted.push(quoted_text(alloc, element.as_str())?)?;
    }
    Ok(quoted)
}

/// A text that is put before or after others.
#[derive(Clone, Copy)]
pub enum Affix<'a> {
    Before(&'a str),
    Behind(&'a str),
}

impl Affix<'_> {
    /// Puts it to the text.
    fn put(self, alloc: Global, text: &str) -> Result<String, AllocError>
        ensures { IfOk result (λ s. string_bytes s ≡ spec.affixed self.entry text.now) }
    {
        let (first, second) = match self {
            Affix::Before(affix) => (affix, text),
            Affix::Behind(affix) => (text, affix),
        };
        let mut whole = String::from_str(alloc, first)?;
        whole.push_str(second)?;
        Ok(whole)
    }
}

/// The elements, each with the affix.
fn with_affix(alloc: Global, affix: Affix, value: &Value) -> Result<Value, AllocError>
    ensures { IfOk result (λ v. v ≡ map (spec.affixed affix.entry) value.now) }
{
    let mut changed = Value::new(alloc);
    for element in value.elements() {
        changed.push(affix.put(alloc, element.as_str())?)?;
    }
    Ok(changed)
}

/// The words of the joined value, each with the affix, joined by spaces.
fn words_with_affix(alloc: Global, affix: Affix, value: &Value) -> Result<String, AllocError>
    ensures { IfOk result (λ s. string_bytes s ≡ joined (map (spec.affixed affix.entry) (words_of (joined value.now)))) }
{
    let text = value.join(alloc)?;
    let words = texts::words(alloc, text.as_str())?;
    let changed = with_affix(alloc, affix, &words)?;
    changed.join(alloc)
}

/// Under `lists` the elements, each with the affix; else the words of the joined value, each with
/// the affix, joined by spaces.
pub fn affixed(alloc: Global, lists: bool, affix: Affix, value: &Value) -> Result<Value, AllocError>
    ensures { IfOk result (λ v. v ≡ each_or_words lists (spec.affixed affix.entry) value.now) }
{
    if lists {
        return with_affix(alloc, affix, value);
    }
    let text = words_with_affix(alloc, affix, value)?;
    Value::from_string(alloc, text)
}
