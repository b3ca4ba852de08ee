//! Variables of the environment as built-in functions tell them.
ghost use Rattle.std.specs.Prelude.{◌≡◌, ◌++◌, codes, Err, IfOk, List, Ok, ℕ, length, map, option_map};
ghost use Rattle.std.specs.String.{string_bytes};
ghost use Rattle.evaluate_builtins.specs.Builtins as spec;
ghost use Rattle.evaluate_builtins.specs.Builtins.{first_variable};
ghost use Rattle.evaluate_builtins.specs.Named.{IsNamed, named};
ghost use Rattle.evaluate_builtins.specs.Variables.{Finds, IsAskedFor, IsLookedUp, default_told};
ghost use Rattle.evaluate_context.specs.Environment as environment;
ghost use Rattle.evaluate_functions.specs.Functions.{Answers};
ghost use Rattle.just_host.specs.Kinds.{AsksQuestions};
ghost use Rattle.just_text.specs.Counts.{counted};
ghost use Rattle.just_value.specs.Lists.{list_text};
ghost use Rattle.meaning_dialogues.specs.Dialogue.{Ends, Evaluates, Reading};
ghost use Rattle.meaning_dialogues.specs.Evaluation.{ticked};

use crate::asked::{ask_optional, fault_behind, says, text_value};
use evaluate_functions::FunctionFault;
use just_host::{Host, HostFault, Question, Recorded};
use just_text::{Count, Text};
use just_value::Value;
use std::alloc::{AllocError, Global};
use std::collections::BTreeMap;

/// The value of the first of these variables that has one, by the files of variables and then by
/// the environment; the default where none has. Refused where there is no default either, and where
/// the environment's value can't be told.
pub(crate) fn variable<H: Host + Drop>(
    alloc: Global,
    host: &mut Recorded<H>,
    dotenv: &BTreeMap<String, String>,
    names: &Value,
    default: Option<&Value>,
) -> Result<Value, FunctionFault>
    ensures asks { AsksQuestions H.goes host.old host.new }
    ensures evaluates { (name : List ℕ) (reading : Reading) → Evaluates reading (first_variable name (map environment.variable dotenv.now.entries) (Ends (default_told name names.now (option_map (λ value. value.now) default.entry))) names.now) host.old.entries host.new.entries (named name result) }
{
    for name in names.elements() {
        match looked_up(alloc, host, dotenv, name.as_str()) {
            Ok(None) => {}
            Ok(Some(text)) => return text_value(alloc, text),
            Err(fault) => return Err(fault),
        }
    }
    default_or_refusal(alloc, names, default)
}

/// The default; refused where there is none.
#[tactic(auto, using(crate::proofs::Named::value_named, crate::proofs::Named::refusal_named))]
fn default_or_refusal(
    alloc: Global,
    names: &Value,
    default: Option<&Value>,
) -> Result<Value, FunctionFault>
    ensures { (name : List ℕ) → IsNamed name result (default_told name names.now (option_map (λ value. value.now) default.entry)) }
{
    match default {
        Some(value) => copied(value),
        None => Err(refusal(alloc, names)),
    }
}

fn copied(value: &Value) -> Result<Value, FunctionFault>
    ensures { Answers (Ok value.now) result }
{
    Ok(value.clone()?)
}

fn refusal(alloc: Global, names: &Value) -> FunctionFault
    ensures { Answers (Err (spec.not_present names.now)) (Err result) }
{
    says(not_present(alloc, names))
}

/// The variable's value, by the files of variables and then by the environment.
#[tactic(auto, using(crate::proofs::Asking::without_memory))]
fn looked_up<H: Host + Drop>(
    alloc: Global,
    host: &mut Recorded<H>,
    dotenv: &BTreeMap<String, String>,
    name: &str,
) -> Result<Option<Text>, FunctionFault>
    ensures asks { AsksQuestions H.goes host.old host.new }
    ensures leads { IsLookedUp (map environment.variable dotenv.now.entries) name.now host.old.entries host.new.entries result }
{
    match in_files(dotenv, name) {
        Some(value) => Ok(Some(Text::from_text(alloc, value)?)),
        None => in_environment(alloc, host, name),
    }
}

/// The value of the variable in the files.
fn in_files<'a>(dotenv: &'a BTreeMap<String, String>, name: &str) -> Option<&'a str>
    ensures { option_map (λ value. value.now) result ≡ environment.last_of name.now (map environment.variable dotenv.now.entries) }
{
    // Only the length of a map says in its contract that the keys stand in their order.
    if dotenv.len() == 0 {
        return None;
    }
    match dotenv.get(name) {
        Some(value) => Some(value.as_str()),
        None => None,
    }
}

/// The value of the environment's variable.
#[tactic(auto, using(crate::proofs::Asking::not_asked_for, crate::proofs::Asking::asked_without_memory))]
fn in_environment<H: Host + Drop>(
    alloc: Global,
    host: &mut Recorded<H>,
    name: &str,
) -> Result<Option<Text>, FunctionFault>
    ensures asks { AsksQuestions H.goes host.old host.new }
    ensures leads { IsAskedFor name.now host.old.entries host.new.entries result }
{
    let question = Question::Environment(Text::from_text(alloc, name)?);
    let answer = ask_optional(alloc, host, &question)?;
    found(alloc, name, answer)
}

/// The value; refused where the answer is a fault.
fn found(
    alloc: Global,
    name: &str,
    answer: Result<Option<Text>, HostFault>,
) -> Result<Option<Text>, FunctionFault>
    ensures { Finds name.now answer result }
{
    match answer {
        Ok(value) => Ok(value),
        Err(fault) => Err(untold(alloc, name, &fault)),
    }
}

/// Why the variable's value can't be told.
fn untold(alloc: Global, name: &str, fault: &HostFault) -> FunctionFault
    ensures { Answers (Err (spec.untold name.now fault.now)) (Err result) }
{
    match fault {
        HostFault::NotUnicode(text) => not_unicode(alloc, name, text.as_str()),
        other => fault_behind(alloc, "", other),
    }
}

fn not_unicode(alloc: Global, name: &str, text: &str) -> FunctionFault
    ensures { Answers (Err (codes "environment variable `" ++ (name.now ++ (codes "` is not unicode: " ++ ticked text.now)))) (Err result) }
{
    says(format!(in alloc; "environment variable `{name}` is not unicode: `{text}`"))
}

/// What is said where none of the variables has a value.
fn not_present(alloc: Global, names: &Value) -> Result<String, AllocError>
    ensures { IfOk result (λ s. string_bytes s ≡ spec.not_present names.now) }
{
    if names.is_empty() {
        return String::from_str(alloc, "empty environment variable list with no default");
    }
    let texts = texts_of(alloc, names)?;
    listed(alloc, texts.as_slice())
}

fn listed(alloc: Global, names: &[Text]) -> Result<String, AllocError>
    ensures { IfOk result (λ s. string_bytes s ≡ counted (codes "environment variable") (length names.now) ++ (codes " " ++ (list_text (codes "and") (map ticked names.now) ++ codes " not present"))) }
{
    let noun = Count::unnumbered("environment variable", names.len());
    let list = just_value::List::and_ticked(names);
    format!(in alloc; "{noun} {list} not present")
}

fn texts_of(alloc: Global, names: &Value) -> Result<Vec<Text>, AllocError>
    ensures { IfOk result (λ texts. texts.items ≡ names.now) }
{
    let mut texts = Vec::new(alloc);
    for name in names.elements() {
        texts.push(Text::from_text(alloc, name.as_str())?)?;
    }
    Ok(texts)
}
