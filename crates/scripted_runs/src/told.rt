//! Records as texts.
use just_run::{CommandJob, Entry, Pair, Question, ScriptJob};
use justfile_syntax::Text;
use std::alloc::{AllocError, Global};

fn push_texts(told: &mut String, texts: &[Text]) -> Result<(), AllocError> {
    for text in texts {
        told.push(' ')?;
        told.push_str(text.as_str())?;
    }
    Ok(())
}

fn push_pairs(told: &mut String, pairs: &[Pair]) -> Result<(), AllocError> {
    for pair in pairs {
        told.push(' ')?;
        told.push_str(pair.name.as_str())?;
        told.push('=')?;
        told.push_str(pair.value.as_str())?;
    }
    Ok(())
}

/// The command, then its words, and its variables, each after a space.
fn push_job(told: &mut String, job: &CommandJob) -> Result<(), AllocError> {
    told.push_str(job.command.as_str())?;
    push_texts(told, job.positional.as_slice())?;
    push_pairs(told, job.pairs.as_slice())?;
    told.push_str("; ")
}

/// The interpreter, the lines, the words and the variables, each after a space.
fn push_script(told: &mut String, job: &ScriptJob) -> Result<(), AllocError> {
    told.push_str("script")?;
    push_texts(told, job.interpreter.as_slice())?;
    push_texts(told, job.lines.as_slice())?;
    push_texts(told, job.positional.as_slice())?;
    push_pairs(told, job.pairs.as_slice())?;
    told.push_str("; ")
}

fn push_behind(told: &mut String, front: &str, text: &str) -> Result<(), AllocError> {
    told.push_str(front)?;
    told.push_str(text)?;
    told.push_str("; ")
}

/// One entry; shows are left out.
fn push_entry(told: &mut String, entry: &Entry) -> Result<(), AllocError> {
    match entry {
        Entry::Asked(Question::Command(job), _) => {
            told.push_str("ask ")?;
            push_job(told, job)
        }
        Entry::Asked(_, _) => told.push_str("ask; "),
        Entry::Line(job, _) => push_job(told, job),
        Entry::Script(job, _) => push_script(told, job),
        Entry::Confirm(prompt, _) => push_behind(told, "confirm ", prompt.as_str()),
        Entry::Show(_) => Ok(()),
        Entry::Dotenv(request, _) => push_behind(told, "dotenv ", request.folder.as_str()),
    }
}

/// The entries but shows, each ended by a semicolon and a space.
pub(crate) fn told(alloc: Global, entries: &[Entry]) -> Result<String, AllocError> {
    let mut told = String::new(alloc);
    for entry in entries {
        push_entry(&mut told, entry)?;
    }
    Ok(told)
}
