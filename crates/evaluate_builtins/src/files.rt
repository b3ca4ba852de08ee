//! Files and programs as built-in functions tell them.
ghost use Rattle.std.specs.Prelude.{◌≡◌, ◌++◌, ◌∷◌, [], Err, IfOk, List, Ok, codes, ℕ};
ghost use Rattle.evaluate_builtins.specs.Builtins.{at_path, exists_dialogue, optional_told, program_dialogue, text_told, truth_told};
ghost use Rattle.evaluate_builtins.specs.Named.{IsNamed, named};
ghost use Rattle.evaluate_context.specs.Surroundings.{surroundings_of};
ghost use Rattle.evaluate_functions.specs.Functions.{Answers};
ghost use Rattle.evaluate_functions.specs.Values.{boolean as boolean_of};
ghost use Rattle.just_host.specs.Kinds.{AsksQuestions};
ghost use Rattle.just_host.specs.Faults.{fault_text};
ghost use Rattle.just_host.specs.declared.host.Question.TheVariants.{Canonicalize, Read, Which};
ghost use Rattle.just_value.specs.Paths as paths;
ghost use Rattle.meaning_dialogues.specs.Dialogue.{Evaluates, Reading};
ghost use Rattle.meaning_dialogues.specs.Evaluation.{ticked};
ghost use Rattle.meaning_dialogues.specs.Faults.{function_failed};

use crate::asked::{ask_optional, ask_text, ask_truth, fault_behind, says, text_value};
use evaluate_context::ExecutionContext;
use evaluate_functions::FunctionFault;
use evaluate_functions::values::boolean;
use just_host::{Host, HostFault, Question, Recorded};
use just_text::Text;
use just_value::{Value, path};
use std::alloc::{AllocError, Global};

/// The path joined to the module's folder.
fn placed(alloc: Global, context: &ExecutionContext, path: &str) -> Result<Text, AllocError>
    ensures { IfOk result (λ text. text ≡ paths.join (surroundings_of context.now).folder path.now) }
{
    let folder = context.working_directory(alloc)?;
    let path = path::join(alloc, folder.as_str(), path)?;
    Ok(Text::from_string(path))
}

/// What the file holds.
pub(crate) fn read<H: Host + Drop>(
    alloc: Global,
    host: &mut Recorded<H>,
    context: &ExecutionContext,
    path: &str,
) -> Result<Value, FunctionFault>
    ensures asks { AsksQuestions H.goes host.old host.new }
    ensures evaluates { (name : List ℕ) (reading : Reading) → Evaluates reading (at_path name Read (codes "reading") (surroundings_of context.now) path.now) host.old.entries host.new.entries (named name result) }
{
    let question = Question::Read(placed(alloc, context, path)?);
    let answer = ask_text(alloc, host, &question)?;
    text_behind(alloc, "reading", path, answer)
}

/// The path without links and detours.
pub(crate) fn canonicalize<H: Host + Drop>(
    alloc: Global,
    host: &mut Recorded<H>,
    context: &ExecutionContext,
    path: &str,
) -> Result<Value, FunctionFault>
    ensures asks { AsksQuestions H.goes host.old host.new }
    ensures evaluates { (name : List ℕ) (reading : Reading) → Evaluates reading (at_path name Canonicalize (codes "canonicalizing") (surroundings_of context.now) path.now) host.old.entries host.new.entries (named name result) }
{
    let question = Question::Canonicalize(placed(alloc, context, path)?);
    let answer = ask_text(alloc, host, &question)?;
    text_behind(alloc, "canonicalizing", path, answer)
}

/// The text; a fault says what was done with the path.
#[tactic(auto, using(crate::proofs::Named::value_named, crate::proofs::Named::refusal_named))]
fn text_behind(
    alloc: Global,
    doing: &str,
    path: &str,
    answer: Result<Text, HostFault>,
) -> Result<Value, FunctionFault>
    ensures { (name : List ℕ) → IsNamed name result (text_told name (codes "I/O error " ++ (doing.now ++ (codes " " ++ (ticked path.now ++ codes ": ")))) answer) }
{
    match answer {
        Ok(text) => text_value(alloc, text),
        Err(fault) => Err(failed(alloc, doing, path, &fault)),
    }
}

fn failed(alloc: Global, doing: &str, path: &str, fault: &HostFault) -> FunctionFault
    ensures { Answers (Err (codes "I/O error " ++ (doing.now ++ (codes " `" ++ (path.now ++ (codes "`: " ++ fault_text fault.now)))))) (Err result) }
{
    says(format!(in alloc; "I/O error {doing} `{path}`: {fault}"))
}

/// Whether there is something at the path; there is nothing at the empty one, which is not asked.
pub(crate) fn path_exists<H: Host + Drop>(
    alloc: Global,
    host: &mut Recorded<H>,
    context: &ExecutionContext,
    path: &str,
) -> Result<Value, FunctionFault>
    ensures asks { AsksQuestions H.goes host.old host.new }
    ensures evaluates { (name : List ℕ) (reading : Reading) → Evaluates reading (exists_dialogue name (surroundings_of context.now) path.now) host.old.entries host.new.entries (named name result) }
{
    let lists = context.module.settings.lists;
    if path.is_empty() {
        return truth_value(alloc, lists, false);
    }
    let question = Question::Exists(placed(alloc, context, path)?);
    let answer = ask_truth(alloc, host, &question)?;
    truth_answer(alloc, lists, answer)
}

/// The truth value; a fault says its text.
#[tactic(auto, using(crate::proofs::Named::value_named, crate::proofs::Named::refusal_named))]
fn truth_answer(
    alloc: Global,
    lists: bool,
    answer: Result<bool, HostFault>,
) -> Result<Value, FunctionFault>
    ensures { (name : List ℕ) → IsNamed name result (truth_told name lists answer) }
{
    match answer {
        Ok(truth) => truth_value(alloc, lists, truth),
        Err(fault) => Err(fault_behind(alloc, "", &fault)),
    }
}

fn truth_value(alloc: Global, lists: bool, truth: bool) -> Result<Value, FunctionFault>
    ensures { Answers (Ok (boolean_of lists truth)) result }
{
    Ok(boolean(alloc, lists, truth)?)
}

/// The question for the program's path, sought from the module's folder.
fn program_question(
    alloc: Global,
    context: &ExecutionContext,
    program: &str,
) -> Result<Question, AllocError>
    ensures { IfOk result (λ question. question ≡ Which program.now (surroundings_of context.now).folder) }
{
    let folder = context.working_directory(alloc)?;
    let name = Text::from_text(alloc, program)?;
    Ok(Question::Which {
        name,
        folder: Text::from_string(folder),
    })
}

/// The path of the program; the empty list where there is none.
pub(crate) fn which<H: Host + Drop>(
    alloc: Global,
    host: &mut Recorded<H>,
    context: &ExecutionContext,
    program: &str,
) -> Result<Value, FunctionFault>
    ensures asks { AsksQuestions H.goes host.old host.new }
    ensures evaluates { (name : List ℕ) (reading : Reading) → Evaluates reading (program_dialogue name (surroundings_of context.now) program.now (Ok [])) host.old.entries host.new.entries (named name result) }
{
    let question = program_question(alloc, context, program)?;
    let answer = ask_optional(alloc, host, &question)?;
    program_or_none(alloc, answer)
}

/// The program that was found; the empty list where there is none.
#[tactic(auto, using(crate::proofs::Named::value_named, crate::proofs::Named::refusal_named))]
fn program_or_none(
    alloc: Global,
    answer: Result<Option<Text>, HostFault>,
) -> Result<Value, FunctionFault>
    ensures { (name : List ℕ) → IsNamed name result (optional_told name (Ok []) answer) }
{
    match answer {
        Ok(Some(path)) => text_value(alloc, path),
        Ok(None) => Ok(Value::new(alloc)),
        Err(fault) => Err(fault_behind(alloc, "", &fault)),
    }
}

/// The path of the program; refused where there is none.
pub(crate) fn require<H: Host + Drop>(
    alloc: Global,
    host: &mut Recorded<H>,
    context: &ExecutionContext,
    program: &str,
) -> Result<Value, FunctionFault>
    ensures asks { AsksQuestions H.goes host.old host.new }
    ensures evaluates { (name : List ℕ) (reading : Reading) → Evaluates reading (program_dialogue name (surroundings_of context.now) program.now (Err (function_failed name (codes "could not find executable " ++ ticked program.now)))) host.old.entries host.new.entries (named name result) }
{
    let question = program_question(alloc, context, program)?;
    let answer = ask_optional(alloc, host, &question)?;
    required_program(alloc, program, answer)
}

/// The program that was found; refused where there is none.
#[tactic(auto, using(crate::proofs::Named::value_named, crate::proofs::Named::refusal_named))]
fn required_program(
    alloc: Global,
    program: &str,
    answer: Result<Option<Text>, HostFault>,
) -> Result<Value, FunctionFault>
    ensures { (name : List ℕ) → IsNamed name result (optional_told name (Err (function_failed name (codes "could not find executable " ++ ticked program.now))) answer) }
{
    match answer {
        Ok(Some(path)) => text_value(alloc, path),
        Ok(None) => Err(missing(alloc, program)),
        Err(fault) => Err(fault_behind(alloc, "", &fault)),
    }
}

fn missing(alloc: Global, program: &str) -> FunctionFault
    ensures { Answers (Err (codes "could not find executable " ++ ticked program.now)) (Err result) }
{
    says(format!(in alloc; "could not find executable `{program}`"))
}
