//! The search for programs.
use crate::host::answer::variable;
use just_host::{Answer, HostFault};
use just_text::Text;
use std::alloc::{AllocError, Global};
use std::env::VarError;
use std::path::Path;
use std::rt::{Env, Files};
use std::{env, fs, io};

/// Whether there is a regular file at the path, or a link to one.
fn is_file<R: Files>(rt: &R, path: &str) -> Result<bool, AllocError> {
    match fs::metadata(rt, path) {
        Ok(found) => Ok(found.is_file()),
        Err(fault) if fault.kind() == io::ErrorKind::OutOfMemory => Err(AllocError),
        Err(_) => Ok(false),
    }
}

/// The name in the folder, if there is a file.
fn in_folder<R: Files + Alloc<A = Global>>(
    rt: &R,
    folder: &str,
    name: &str,
) -> Result<Option<String>, AllocError> {
    let path = Path::new(folder).join(rt.alloc(), name)?;
    if is_file(rt, path.as_str())? {
        Ok(Some(String::from_str(rt.alloc(), path.as_str())?))
    } else {
        Ok(None)
    }
}

/// The first file of this name in the folders, which stand between colons.
fn in_folders<R: Files + Alloc<A = Global>>(
    rt: &R,
    folders: &str,
    name: &str,
) -> Result<Option<String>, AllocError> {
    for folder in folders.split(':') {
        if let Some(path) = in_folder(rt, folder, name)? {
            return Ok(Some(path));
        }
    }
    Ok(None)
}

/// What was found, as an answer.
fn found(path: Result<Option<String>, AllocError>) -> Answer {
    match path {
        Ok(Some(path)) => Answer::Text(Text::from_string(path)),
        Ok(None) => Answer::Absent,
        Err(_) => Answer::Fault(HostFault::Memory),
    }
}

/// The path of the program of this name: one with `/` is sought from the folder, another in each folder of `PATH`, of
/// which the first with a file counts. Absent where there is none, and for the empty name.
pub fn which<R: Files + Env + Alloc<A = Global>>(rt: &R, name: &str, folder: &str) -> Answer {
    if name.is_empty() {
        return Answer::Absent;
    }
    if name.contains('/') {
        return found(in_folder(rt, folder, name));
    }
    match env::var(rt, "PATH") {
        Ok(folders) => found(in_folders(rt, folders.as_str(), name)),
        Err(VarError::NotPresent) => Answer::Absent,
        Err(fault) => variable(rt.alloc(), Err(fault)),
    }
}
