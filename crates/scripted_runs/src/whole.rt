//! Records as texts, with what commands and scripts run under.
use crate::questions::question_text;
use just_run::{CommandJob, DotenvRequest, Entry, Pair, Question, ScriptJob};
use justfile_syntax::Text;
use std::alloc::{AllocError, Global};

fn push_marked(told: &mut String, mark: &str, text: &str) -> Result<(), AllocError> {
    told.push_str(mark)?;
    told.push_str(text)
}

fn push_texts(told: &mut String, mark: &str, texts: &[Text]) -> Result<(), AllocError> {
    for text in texts {
        push_marked(told, mark, text.as_str())?;
    }
    Ok(())
}

fn push_folder(told: &mut String, folder: Option<&Text>) -> Result<(), AllocError> {
    match folder {
        Some(folder) => push_marked(told, " in ", folder.as_str()),
        None => Ok(()),
    }
}

fn push_pairs(told: &mut String, pairs: &[Pair]) -> Result<(), AllocError> {
    for pair in pairs {
        push_marked(told, " ", pair.name.as_str())?;
        push_marked(told, "=", pair.value.as_str())?;
    }
    Ok(())
}

fn push_flag(told: &mut String, flag: bool, text: &str) -> Result<(), AllocError> {
    if flag {
        told.push_str(text)?;
    }
    Ok(())
}

/// What stands after the shell: the words, the folder, the variables and the names that are removed.
fn push_site(
    told: &mut String,
    words: &[Text],
    folder: Option<&Text>,
    pairs: &[Pair],
    removed: &[Text],
) -> Result<(), AllocError> {
    push_texts(told, " +", words)?;
    push_folder(told, folder)?;
    push_pairs(told, pairs)?;
    push_texts(told, " -", removed)
}

/// What a command runs under: the shell, what stands after it, and whether it runs unprinted.
fn push_job(told: &mut String, job: &CommandJob) -> Result<(), AllocError> {
    told.push_str(" by")?;
    push_texts(told, " ", job.shell.as_slice())?;
    push_site(
        told,
        job.positional.as_slice(),
        job.folder.as_ref(),
        job.pairs.as_slice(),
        job.removed.as_slice(),
    )?;
    push_flag(told, job.quiet, " quiet")
}

/// What a script runs under: the interpreter, the end of its name, and what stands after.
fn push_script_site(told: &mut String, job: &ScriptJob) -> Result<(), AllocError> {
    told.push_str(" by")?;
    push_texts(told, " ", job.interpreter.as_slice())?;
    if let Some(extension) = &job.extension {
        push_marked(told, " *", extension.as_str())?;
    }
    push_site(
        told,
        job.positional.as_slice(),
        job.folder.as_ref(),
        job.pairs.as_slice(),
        job.removed.as_slice(),
    )
}

fn push_script(told: &mut String, job: &ScriptJob) -> Result<(), AllocError> {
    told.push_str("script")?;
    push_texts(told, " | ", job.lines.as_slice())?;
    push_script_site(told, job)
}

/// What the question's answer depends on beside what is asked.
fn push_place(told: &mut String, question: &Question) -> Result<(), AllocError> {
    match question {
        Question::Command(job) => push_job(told, job),
        Question::Which { folder, .. } => push_folder(told, Some(folder)),
        _ => Ok(()),
    }
}

fn push_question(alloc: Global, told: &mut String, question: &Question) -> Result<(), AllocError> {
    let text = question_text(alloc, question)?;
    push_marked(told, "? ", text.as_str())?;
    push_place(told, question)
}

fn push_line(told: &mut String, job: &CommandJob) -> Result<(), AllocError> {
    push_marked(told, "run ", job.command.as_str())?;
    push_job(told, job)
}

/// How the files are read: each flag that is set.
fn push_dotenv_flags(told: &mut String, request: &DotenvRequest) -> Result<(), AllocError> {
    push_flag(told, request.load, " load")?;
    push_flag(told, request.overriding, " override")?;
    push_flag(told, request.required, " required")
}

/// Which files are read: names, paths and the words of a command, and the folder.
fn push_dotenv(told: &mut String, request: &DotenvRequest) -> Result<(), AllocError> {
    told.push_str("dotenv")?;
    push_dotenv_flags(told, request)?;
    push_texts(told, " name ", request.filenames.as_slice())?;
    push_texts(told, " path ", request.paths.as_slice())?;
    push_texts(told, " +", request.command.as_slice())?;
    push_folder(told, Some(&request.folder))
}

fn push_entry(alloc: Global, told: &mut String, entry: &Entry) -> Result<(), AllocError> {
    match entry {
        Entry::Asked(question, _) => push_question(alloc, told, question),
        Entry::Line(job, _) => push_line(told, job),
        Entry::Script(job, _) => push_script(told, job),
        Entry::Confirm(prompt, _) => push_marked(told, "confirm ", prompt.as_str()),
        Entry::Show(text) => push_marked(told, "show ", text.as_str()),
        Entry::Dotenv(request, _) => push_dotenv(told, request),
    }
}

/// The entries, one a line.
pub(crate) fn told_whole(alloc: Global, entries: &[Entry]) -> Result<String, AllocError> {
    let mut told = String::new(alloc);
    for entry in entries {
        push_entry(alloc, &mut told, entry)?;
        told.push('\n')?;
    }
    Ok(told)
}
