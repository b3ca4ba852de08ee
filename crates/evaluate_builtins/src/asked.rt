//! Questions to the host, and its answers. Each function here asks one question; it is refused
//! where memory for the record is or was wanting, while memory's fault of the host's own is a fault
//! like others.
ghost use Rattle.std.specs.Prelude.{◌≡◌, ◌∷◌, ◌++◌, [], Err, IfOk, List, Ok, ℕ};
ghost use Rattle.std.specs.String.{string_bytes};
ghost use Rattle.evaluate_builtins.specs.Builtins.{text_told};
ghost use Rattle.evaluate_builtins.specs.Named.{IsNamed};
ghost use Rattle.evaluate_functions.specs.Functions.{Answers};
ghost use Rattle.just_host.specs.Kinds.{AsksQuestions};
ghost use Rattle.just_host.specs.Faults.{fault_text};
ghost use Rattle.just_host.specs.declared.entry.Entry.TheVariants.{Asked};
ghost use Rattle.meaning_dialogues.specs.Answers as answers;
ghost use Rattle.meaning_dialogues.specs.Answers.{IsAnswered, MayAsk};

use evaluate_functions::FunctionFault;
use just_host::{Answer, Host, HostFault, Question, Recorded};
use just_text::Text;
use just_value::Value;
use std::alloc::{AllocError, Global};

/// The host's answer.
fn ask<H: Host + Drop>(host: &mut Recorded<H>, question: &Question) -> Result<Answer, AllocError>
    ensures asks { AsksQuestions H.goes host.old host.new }
    ensures begun { MayAsk question.now host.old.entries host.new.entries }
    ensures kept { IfOk result (λ answer. host.new.entries ≡ host.old.entries ++ Asked question.now answer ∷ []) }
{
    let answer = host.ask(question);
    if host.exhausted() {
        return Err(AllocError);
    }
    Ok(answer)
}

/// The fault of an answer that the question does not take.
fn unexpected(alloc: Global) -> Result<HostFault, AllocError>
    ensures { IfOk result (λ fault. fault ≡ answers.unexpected) }
{
    let text = Text::from_text(alloc, "unexpected answer")?;
    Ok(HostFault::Io(text))
}

/// The answer as a text.
fn text_of(alloc: Global, answer: Answer) -> Result<Result<Text, HostFault>, AllocError>
    ensures { IfOk result (λ text. text ≡ answers.text_in answer) }
{
    match answer {
        Answer::Text(text) => Ok(Ok(text)),
        Answer::Fault(fault) => Ok(Err(fault)),
        Answer::Absent | Answer::Truth(_) => Ok(Err(unexpected(alloc)?)),
    }
}

/// The answer as a text that may be absent.
fn optional_of(alloc: Global, answer: Answer) -> Result<Result<Option<Text>, HostFault>, AllocError>
    ensures { IfOk result (λ text. text ≡ answers.optional_in answer) }
{
    match answer {
        Answer::Text(text) => Ok(Ok(Some(text))),
        Answer::Absent => Ok(Ok(None)),
        Answer::Fault(fault) => Ok(Err(fault)),
        Answer::Truth(_) => Ok(Err(unexpected(alloc)?)),
    }
}

/// The answer as a truth value.
fn truth_of(alloc: Global, answer: Answer) -> Result<Result<bool, HostFault>, AllocError>
    ensures { IfOk result (λ truth. truth ≡ answers.truth_in answer) }
{
    match answer {
        Answer::Truth(truth) => Ok(Ok(truth)),
        Answer::Fault(fault) => Ok(Err(fault)),
        Answer::Absent | Answer::Text(_) => Ok(Err(unexpected(alloc)?)),
    }
}

/// Asks for a text.
pub fn ask_text<H: Host + Drop>(
    alloc: Global,
    host: &mut Recorded<H>,
    question: &Question,
) -> Result<Result<Text, HostFault>, AllocError>
    ensures asks { AsksQuestions H.goes host.old host.new }
    ensures begun { MayAsk question.now host.old.entries host.new.entries }
    ensures answered { IfOk result (IsAnswered question.now answers.text_in host.old.entries host.new.entries) }
{
    let answer = ask(host, question)?;
    text_of(alloc, answer)
}

/// Asks for a text that may be absent.
pub fn ask_optional<H: Host + Drop>(
    alloc: Global,
    host: &mut Recorded<H>,
    question: &Question,
) -> Result<Result<Option<Text>, HostFault>, AllocError>
    ensures asks { AsksQuestions H.goes host.old host.new }
    ensures begun { MayAsk question.now host.old.entries host.new.entries }
    ensures answered { IfOk result (IsAnswered question.now answers.optional_in host.old.entries host.new.entries) }
{
    let answer = ask(host, question)?;
    optional_of(alloc, answer)
}

/// Asks for a truth value.
pub fn ask_truth<H: Host + Drop>(
    alloc: Global,
    host: &mut Recorded<H>,
    question: &Question,
) -> Result<Result<bool, HostFault>, AllocError>
    ensures asks { AsksQuestions H.goes host.old host.new }
    ensures begun { MayAsk question.now host.old.entries host.new.entries }
    ensures answered { IfOk result (IsAnswered question.now answers.truth_in host.old.entries host.new.entries) }
{
    let answer = ask(host, question)?;
    truth_of(alloc, answer)
}

/// The text alone.
pub(crate) fn text_value(alloc: Global, text: Text) -> Result<Value, FunctionFault>
    ensures { Answers (Ok (text ∷ [])) result }
{
    Ok(Value::from_string(alloc, text.into_string())?)
}

/// The refusal with this message.
pub(crate) fn says(message: Result<String, AllocError>) -> FunctionFault
    ensures { (text : List ℕ) → IfOk message (λ m. string_bytes m ≡ text) → Answers (Err text) (Err result) }
{
    match message {
        Ok(message) => FunctionFault::Message(Text::from_string(message)),
        Err(_) => FunctionFault::OutOfMemory,
    }
}

/// The refusal that says the fault's text after these words.
pub(crate) fn fault_behind(alloc: Global, words: &str, fault: &HostFault) -> FunctionFault
    ensures { Answers (Err (words.now ++ fault_text fault.now)) (Err result) }
{
    says(format!(in alloc; "{words}{fault}"))
}

/// The text alone; a fault says its text.
#[tactic(auto, using(crate::proofs::Named::value_named, crate::proofs::Named::refusal_named))]
pub(crate) fn text_answer(
    alloc: Global,
    answer: Result<Text, HostFault>,
) -> Result<Value, FunctionFault>
    ensures { (name : List ℕ) → IsNamed name result (text_told name [] answer) }
{
    match answer {
        Ok(text) => text_value(alloc, text),
        Err(fault) => Err(fault_behind(alloc, "", &fault)),
    }
}
