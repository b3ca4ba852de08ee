//! Answers of the functions that their arguments determine.
ghost use Rattle.std.specs.Prelude.{◌≡◌, ◌∷◌, [], List, ℕ, Ok, IfOk, option_map};
ghost use Rattle.std.specs.Option.{option_or};
ghost use Rattle.evaluate_functions.specs.Functions as spec;
ghost use Rattle.evaluate_functions.specs.Functions.{Answers, AnswersAny};
ghost use Rattle.evaluate_functions.specs.Values.{affixed};

use crate::cases::{Case, cased};
use crate::fault::FunctionFault;
use crate::function::Function;
use crate::values::{self, Affix};
use crate::{paths, texts};
use just_value::Value;
use std::alloc::{AllocError, Global};

/// The value's first element; the empty text where it has none.
#[tactic(auto, using(crate::proofs::Firsts::first_there, crate::proofs::Firsts::first_missing))]
pub fn text_of(value: &Value) -> &str
    ensures { result.now ≡ spec.first_text value.now }
{
    match value.elements().first() {
        Some(element) => element.as_str(),
        None => "",
    }
}

/// The first element of the argument at this place; the empty text where there is none.
pub fn text_at(arguments: &[Value], index: usize) -> &str
    ensures { result.now ≡ spec.text_at arguments.now index }
{
    match arguments.get(index) {
        Some(value) => text_of(value),
        None => "",
    }
}

/// The argument at this place; the other value where there is none.
fn value_at<'a>(arguments: &'a [Value], index: usize, other: &'a Value) -> &'a Value
    ensures { other.now ≡ [] → result.now ≡ spec.value_at arguments.now index }
{
    match arguments.get(index) {
        Some(value) => value,
        None => other,
    }
}

/// What the function answers to the arguments, if these alone determine it; none where they don't.
/// `lists` tells what boolean values are, and what `append` and `prepend` go over. A missing
/// argument is the empty value. Refused with what the function says, and as `OutOfMemory`.
pub fn pure_answer(
    alloc: Global,
    lists: bool,
    function: Function,
    arguments: &[Value],
) -> Option<Result<Value, FunctionFault>>
    ensures { AnswersAny (spec.pure lists function arguments.now) result }
{
    let text = text_at(arguments, 0);
    if let Some(part) = part_of(function, text, text_at(arguments, 1)) {
        return Some(unless_memory(Value::from_text(alloc, part)));
    }
    if let Some(case) = Case::of(function) {
        return Some(cased(alloc, case, text));
    }
    if let Some(answer) = paths::path_answer(alloc, function, text) {
        return Some(answer);
    }
    if let Some(answer) = text_answer(alloc, function, arguments) {
        return Some(answer);
    }
    value_answer(alloc, lists, function, arguments)
}

/// The part of the text that the function leaves; none where it is no such function.
fn part_of<'a>(function: Function, text: &'a str, mark: &str) -> Option<&'a str>
    ensures { option_map (λ part. part.now) result ≡ option_or (spec.trimmed function text.now) (spec.stripped function mark.now text.now) }
{
    match texts::trimmed(function, text) {
        Some(part) => Some(part),
        None => texts::stripped(function, text, mark),
    }
}

/// The answer, where only memory can refuse it.
fn unless_memory(answer: Result<Value, AllocError>) -> Result<Value, FunctionFault>
    ensures { (value : List (List ℕ)) → IfOk answer (λ v. v ≡ value) → Answers (Ok value) result }
{
    match answer {
        Ok(value) => Ok(value),
        Err(_) => Err(FunctionFault::OutOfMemory),
    }
}

/// What a function makes of texts alone; none where it is no such function.
fn text_answer(
    alloc: Global,
    function: Function,
    arguments: &[Value],
) -> Option<Result<Value, FunctionFault>>
    ensures { AnswersAny (option_map (λ value. Ok value) (spec.text_answer function arguments.now)) result }
{
    let text = text_at(arguments, 0);
    let second = text_at(arguments, 1);
    let third = text_at(arguments, 2);
    match function {
        Function::EncodeUriComponent => Some(unless_memory(texts::encoded(alloc, text))),
        Function::Join => Some(unless_memory(paths::joined(alloc, arguments))),
        Function::Replace => Some(unless_memory(texts::replaced(alloc, text, second, third))),
        Function::Split => Some(unless_memory(split(alloc, arguments))),
        _ => None,
    }
}

/// The words of the first argument, or its parts around the second.
fn split(alloc: Global, arguments: &[Value]) -> Result<Value, AllocError>
    ensures { IfOk result (λ v. v ≡ spec.split_of arguments.now) }
{
    match arguments {
        [text, separator, ..] => texts::split(alloc, text_of(text), text_of(separator)),
        _ => texts::words(alloc, text_at(arguments, 0)),
    }
}

/// What a function makes of a whole value; none where it is no such function.
fn value_answer(
    alloc: Global,
    lists: bool,
    function: Function,
    arguments: &[Value],
) -> Option<Result<Value, FunctionFault>>
    ensures { AnswersAny (spec.value_answer lists function arguments.now) result }
{
    let empty = Value::new(alloc);
    let value = value_at(arguments, 0, &empty);
    let text = text_of(value);
    match function {
        Function::Append => Some(affix_answer(alloc, lists, Affix::Behind(text), arguments)),
        Function::Prepend => Some(affix_answer(alloc, lists, Affix::Before(text), arguments)),
        Function::Bool => Some(values::bool_value(alloc, lists, value)),
        Function::Error => Some(Err(FunctionFault::from_text(alloc, text))),
        Function::JoinList => Some(list_answer(alloc, value, arguments)),
        Function::Len => Some(unless_memory(values::length(alloc, value))),
        Function::Quote => Some(unless_memory(values::quoted(alloc, value))),
        Function::Show => Some(unless_memory(values::shown(alloc, value))),
        _ => None,
    }
}

/// What stands between two elements that are joined.
fn separator_in(arguments: &[Value]) -> &str
    ensures { result.now ≡ spec.separator_in arguments.now }
{
    match arguments {
        [_, separator, ..] => text_of(separator),
        _ => " ",
    }
}

/// The elements, with what the arguments say between two.
fn list_answer(alloc: Global, value: &Value, arguments: &[Value]) -> Result<Value, FunctionFault>
    ensures { Answers (Ok (spec.joined_by (spec.separator_in arguments.now) value.now ∷ [])) result }
{
    let separator = separator_in(arguments);
    unless_memory(values::joined_list(alloc, value, separator))
}

/// The second argument with the affix.
fn affix_answer(
    alloc: Global,
    lists: bool,
    affix: Affix,
    arguments: &[Value],
) -> Result<Value, FunctionFault>
    ensures { Answers (Ok (spec.each_or_words lists (affixed affix.entry) (spec.value_at arguments.now 1))) result }
{
    let empty = Value::new(alloc);
    let value = value_at(arguments, 1, &empty);
    unless_memory(values::affixed(alloc, lists, affix, value))
}
