//! What a run would hand over and ask the user, one a line.
ghost use Rattle.std.specs.Prelude.{◌≡◌, ◌++◌, IfOk, OnOk};
ghost use Rattle.std.specs.String.{string_bytes};
ghost use Rattle.just_value.specs.Values.{value_text};
ghost use Rattle.run_plan.specs.Plans as spec;

use just_host::{CommandJob, Entry, ScriptJob};
use just_text::Text;
use just_value::Value;
use std::alloc::{AllocError, Global};

/// The texts as a value.
fn value_of(alloc: Global, texts: &[Text]) -> Result<Value, AllocError>
    ensures { IfOk result (λ value. value ≡ texts.now) }
{
    let mut value = Value::new(alloc);
    for text in texts {
        value.push(String::from_str(alloc, text.as_str())?)?;
    }
    Ok(value)
}

/// Puts the word and the printed value there.
fn push_printed(
    alloc: Global,
    plan: &mut String,
    word: &str,
    value: &Value,
) -> Result<(), AllocError>
    ensures { OnOk result (string_bytes plan.new ≡ string_bytes plan.old ++ (word.now ++ value_text value.now)) }
{
    let printed = value.to_string(alloc)?;
    plan.push_str(word)?;
    plan.push_str(printed.as_str())
}

/// Puts the words after a command there, where there are any.
fn push_positional(alloc: Global, plan: &mut String, words: &[Text]) -> Result<(), AllocError>
    ensures { OnOk result (string_bytes plan.new ≡ string_bytes plan.old ++ spec.positional_text words.now) }
{
    if words.is_empty() {
        return Ok(());
    }
    let words = value_of(alloc, words)?;
    push_printed(alloc, plan, " positional ", &words)
}

fn push_line(alloc: Global, plan: &mut String, job: &CommandJob) -> Result<(), AllocError>
    ensures { OnOk result (string_bytes plan.new ≡ string_bytes plan.old ++ spec.line_text job.now) }
{
    let command = Value::from_text(alloc, job.command.as_str())?;
    push_printed(alloc, plan, "line ", &command)?;
    push_positional(alloc, plan, job.positional.as_slice())?;
    plan.push('\n')
}

fn push_script(alloc: Global, plan: &mut String, job: &ScriptJob) -> Result<(), AllocError>
    ensures { OnOk result (string_bytes plan.new ≡ string_bytes plan.old ++ spec.script_text job.now) }
{
    let lines = value_of(alloc, job.lines.as_slice())?;
    push_printed(alloc, plan, "script ", &lines)?;
    plan.push('\n')
}

fn push_confirmation(alloc: Global, plan: &mut String, prompt: &Text) -> Result<(), AllocError>
    ensures { OnOk result (string_bytes plan.new ≡ string_bytes plan.old ++ spec.confirmation_text prompt.now) }
{
    let prompt = Value::from_text(alloc, prompt.as_str())?;
    push_printed(alloc, plan, "confirm ", &prompt)?;
    plan.push('\n')
}

/// Puts the entry's line there; there is none of questions, texts that are shown, and requests for
/// files of variables.
fn push_entry(alloc: Global, plan: &mut String, entry: &Entry) -> Result<(), AllocError>
    ensures { OnOk result (string_bytes plan.new ≡ string_bytes plan.old ++ spec.entry_text entry.now) }
{
    match entry {
        Entry::Line(job, _) => push_line(alloc, plan, job),
        Entry::Script(job, _) => push_script(alloc, plan, job),
        Entry::Confirm(prompt, _) => push_confirmation(alloc, plan, prompt),
        Entry::Asked(_, _) | Entry::Show(_) | Entry::Dotenv(_, _) => Ok(()),
    }
}

/// The commands, scripts and prompts among the entries, one a line in their order: `line` and the
/// printed value of the command, after it `positional` and that of the words after the command,
/// where there are any; `script` and the printed value of its lines; `confirm` and that of the
/// prompt.
pub fn plan_text(alloc: Global, entries: &[Entry]) -> Result<String, AllocError>
    ensures { IfOk result (λ text. string_bytes text ≡ spec.plan_text entries.now) }
{
    let mut plan = String::new(alloc);
    for entry in entries {
        push_entry(alloc, &mut plan, entry)?;
    }
    Ok(plan)
}
