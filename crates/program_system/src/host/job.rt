//! A process of a job: its words, its environment and its folder.
use just_host::{CommandJob, Pair, ScriptJob};
use just_text::Text;
use std::alloc::{AllocError, Global};
use std::process::Command;

/// Adds the words.
fn add_words(command: &mut Command, words: &[Text]) -> Result<(), AllocError> {
    for word in words {
        command.arg(word.as_str())?;
    }
    Ok(())
}

/// Sets the variables, of which a later one of a name counts.
fn set_variables(command: &mut Command, pairs: &[Pair]) -> Result<(), AllocError> {
    for pair in pairs {
        command.env(pair.name.as_str(), pair.value.as_str())?;
    }
    Ok(())
}

/// Takes the variables of these names away.
fn remove_variables(command: &mut Command, names: &[Text]) -> Result<(), AllocError> {
    for name in names {
        command.env_remove(name.as_str())?;
    }
    Ok(())
}

/// Sets the folder, where one is given.
fn set_folder(command: &mut Command, folder: Option<&Text>) -> Result<(), AllocError> {
    if let Some(folder) = folder {
        command.current_dir(folder.as_str())?;
    }
    Ok(())
}

/// A process of these words and the text after them; without words the text is the program.
fn begin(alloc: Global, words: &[Text], text: &str) -> Result<Command, AllocError> {
    let Some((program, others)) = words.split_first() else {
        return Command::new(alloc, text);
    };
    let mut command = Command::new(alloc, program.as_str())?;
    add_words(&mut command, others)?;
    command.arg(text)?;
    Ok(command)
}

/// The process of a command: the shell's words, the command and the words after it, in the job's environment and
/// folder. Without a shell the command is the program.
pub fn command_process(alloc: Global, job: &CommandJob) -> Result<Command, AllocError> {
    let mut command = begin(alloc, job.shell.as_slice(), job.command.as_str())?;
    add_words(&mut command, job.positional.as_slice())?;
    remove_variables(&mut command, job.removed.as_slice())?;
    set_variables(&mut command, job.pairs.as_slice())?;
    set_folder(&mut command, job.folder.as_ref())?;
    Ok(command)
}

/// The process of a script that stands at the path: the interpreter's words, the path and the words after it, in the
/// job's environment and folder. Without an interpreter the path is the program.
pub fn script_process(alloc: Global, job: &ScriptJob, path: &str) -> Result<Command, AllocError> {
    let mut command = begin(alloc, job.interpreter.as_slice(), path)?;
    add_words(&mut command, job.positional.as_slice())?;
    remove_variables(&mut command, job.removed.as_slice())?;
    set_variables(&mut command, job.pairs.as_slice())?;
    set_folder(&mut command, job.folder.as_ref())?;
    Ok(command)
}
