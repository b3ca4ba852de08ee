//! Facts of the machine.
ghost use Rattle.std.specs.Prelude.{◌≡◌, ◌++◌, Err, List, codes, option_map, ℕ};
ghost use Rattle.evaluate_builtins.specs.Builtins.{machine_fact, machine_folder, optional_told};
ghost use Rattle.evaluate_builtins.specs.Facts as spec;
ghost use Rattle.evaluate_builtins.specs.Named.{IsNamed, named};
ghost use Rattle.evaluate_functions.specs.Functions.{Answers};
ghost use Rattle.just_host.specs.Kinds.{AsksQuestions};
ghost use Rattle.meaning_dialogues.specs.Dialogue.{Evaluates, Reading};
ghost use Rattle.meaning_dialogues.specs.Faults.{function_failed};

use crate::asked::{ask_optional, ask_text, fault_behind, says, text_answer, text_value};
use evaluate_functions::{Function, FunctionFault};
use just_host::{Host, HostFault, MachineFact, Question, Recorded};
use just_text::Text;
use just_value::Value;
use std::alloc::Global;

/// The folder that the function tells, with its name in words; none where it is no such function.
pub(crate) fn folder_of(function: Function) -> Option<(MachineFact, &'static str)>
    ensures { option_map (λ row. (row.0, row.1.now)) result ≡ spec.folder_of function }
{
    match function {
        Function::CacheDirectory => Some((MachineFact::Cache, "cache")),
        Function::ConfigDirectory => Some((MachineFact::Config, "config")),
        Function::ConfigLocalDirectory => Some((MachineFact::ConfigLocal, "local config")),
        Function::DataDirectory => Some((MachineFact::Data, "data")),
        Function::DataLocalDirectory => Some((MachineFact::DataLocal, "local data")),
        Function::ExecutableDirectory => Some((MachineFact::Runnable, "executable")),
        Function::HomeDirectory => Some((MachineFact::Home, "home")),
        Function::RuntimeDirectory => Some((MachineFact::Runtime, "runtime")),
        _ => None,
    }
}

/// The other fact that the function tells; none where it is no such function.
pub(crate) fn fact_of(function: Function) -> Option<MachineFact>
    ensures { result ≡ spec.fact_of function }
{
    match function {
        Function::JustExecutable => Some(MachineFact::Executable),
        Function::JustPid => Some(MachineFact::Pid),
        Function::NumCpus => Some(MachineFact::Cpus),
        _ => None,
    }
}

/// The folder; refused where there is none.
pub(crate) fn folder_answer<H: Host + Drop>(
    alloc: Global,
    host: &mut Recorded<H>,
    fact: MachineFact,
    words: &str,
) -> Result<Value, FunctionFault>
    ensures asks { AsksQuestions H.goes host.old host.new }
    ensures evaluates { (name : List ℕ) (reading : Reading) → Evaluates reading (machine_folder name fact words.now) host.old.entries host.new.entries (named name result) }
{
    let answer = ask_optional(alloc, host, &Question::Fact(fact))?;
    found_folder(alloc, words, answer)
}

fn missing(alloc: Global, words: &str) -> FunctionFault
    ensures { Answers (Err (words.now ++ codes " directory not found")) (Err result) }
{
    says(format!(in alloc; "{words} directory not found"))
}

/// The folder that was found; refused with these words where there is none.
#[tactic(auto, using(crate::proofs::Named::value_named, crate::proofs::Named::refusal_named))]
fn found_folder(
    alloc: Global,
    words: &str,
    answer: Result<Option<Text>, HostFault>,
) -> Result<Value, FunctionFault>
    ensures { (name : List ℕ) → IsNamed name result (optional_told name (Err (function_failed name (words.now ++ codes " directory not found"))) answer) }
{
    match answer {
        Ok(Some(folder)) => text_value(alloc, folder),
        Ok(None) => Err(missing(alloc, words)),
        Err(fault) => Err(fault_behind(alloc, "", &fault)),
    }
}

/// The fact.
pub(crate) fn fact_answer<H: Host + Drop>(
    alloc: Global,
    host: &mut Recorded<H>,
    fact: MachineFact,
) -> Result<Value, FunctionFault>
    ensures asks { AsksQuestions H.goes host.old host.new }
    ensures evaluates { (name : List ℕ) (reading : Reading) → Evaluates reading (machine_fact name fact) host.old.entries host.new.entries (named name result) }
{
    let answer = ask_text(alloc, host, &Question::Fact(fact))?;
    text_answer(alloc, answer)
}
