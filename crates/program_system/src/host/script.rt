//! Script files.
use crate::host::ended::status_of;
use crate::host::job::script_process;
use just_host::{ScriptJob, Status};
use just_text::Text;
use std::alloc::{AllocError, Global};
use std::fs::OpenOptions;
use std::io::Write;
use std::os::unix::fs::OpenOptionsExt;
use std::process::Processes;
use std::rt::Files;
use std::{fs, io};

/// So many names are tried.
const NAME_COUNT: u32 = 10_000;

/// Its owner alone may read, write and run a script file.
const MODE: u32 = 0o700;

/// The script's text: its lines, each ended by a newline.
pub fn script_text(alloc: Global, lines: &[Text]) -> Result<String, AllocError> {
    let mut text = String::new(alloc);
    for line in lines {
        text.push_str(line.as_str())?;
        text.push('\n')?;
    }
    Ok(text)
}

/// The path of the file of this number.
fn script_path(
    alloc: Global,
    folder: &str,
    number: u32,
    extension: &str,
) -> Result<String, AllocError> {
    format!(in alloc; "{folder}/.just-script-{number}{extension}")
}

/// A new file at the path, or the fault.
fn create<R: Files>(rt: &R, path: &str) -> io::Result<R::File> {
    OpenOptions::new()
        .write(true)
        .create_new(true)
        .mode(MODE)
        .open(rt, path)
}

/// What became of a file that was to be written anew.
#[derive(Clone, Copy, Debug, PartialEq, Eq)]
enum Written {
    Whole,
    /// There was a file of that name before.
    Taken,
    Failed,
}

/// Writes a text into a new file, which is gone again where that fails.
fn write_new<R: Files>(rt: &R, path: &str, text: &str) -> Written {
    match create(rt, path) {
        Ok(mut file) => match file.write_all(text.as_bytes()) {
            Ok(()) => Written::Whole,
            Err(_) => {
                let _ = fs::remove_file(rt, path);
                Written::Failed
            }
        },
        Err(fault) if fault.kind() == io::ErrorKind::AlreadyExists => Written::Taken,
        Err(_) => Written::Failed,
    }
}

/// Writes the text into the first file of these names that isn't there yet, and gives its path. `None` where each is
/// there or where it can't be written.
fn write_first<R: Files + Alloc<A = Global>>(
    rt: &R,
    folder: &str,
    extension: &str,
    text: &str,
) -> Result<Option<String>, AllocError> {
    for number in 0..NAME_COUNT {
        let path = script_path(rt.alloc(), folder, number, extension)?;
        match write_new(rt, path.as_str(), text) {
            Written::Whole => return Ok(Some(path)),
            Written::Taken => {}
            Written::Failed => return Ok(None),
        }
    }
    Ok(None)
}

/// Writes the job's script into the first free file.
fn write_script<R: Files + Alloc<A = Global>>(
    rt: &R,
    folder: &str,
    job: &ScriptJob,
) -> Result<Option<String>, AllocError> {
    let Some(extension) = extension(job) else {
        return Ok(None);
    };
    let text = script_text(rt.alloc(), job.lines.as_slice())?;
    write_first(rt, folder, extension, text.as_str())
}

/// Runs the script that is written at the path.
fn run_file<R: Processes + Alloc<A = Global>>(rt: &R, job: &ScriptJob, path: &str) -> Status {
    let Ok(mut command) = script_process(rt.alloc(), job, path) else {
        return Status::NotStarted;
    };
    match command.status(rt) {
        Ok(ended) => status_of(ended),
        Err(_) => Status::NotStarted,
    }
}

/// The end of the script's name, if it may be one.
fn extension(job: &ScriptJob) -> Option<&str> {
    match &job.extension {
        None => Some(""),
        Some(extension) if extension.as_str().contains('/') => None,
        Some(extension) => Some(extension.as_str()),
    }
}

/// Writes the script into a new file in the folder, runs it by its path, and removes the file. `NotStarted` where no
/// name is free, the file can't be written, or its interpreter can't start.
pub fn run_script<R: Processes + Files + Alloc<A = Global>>(
    rt: &R,
    folder: &str,
    job: &ScriptJob,
) -> Status {
    let Ok(Some(path)) = write_script(rt, folder, job) else {
        return Status::NotStarted;
    };
    let status = run_file(rt, job, path.as_str());
    let _ = fs::remove_file(rt, path.as_str());
    status
}
