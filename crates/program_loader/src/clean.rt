//! A folder's path without `.` and `..`.

use crate::readable::readable;
use std::alloc::{AllocError, Global};
use std::fs;
use std::rt::Files;

/// Whether a component of the path is `.` or `..`.
fn has_dots(path: &str) -> bool {
    for component in path.split('/') {
        if component == "." || component == ".." {
            return true;
        }
    }
    false
}

/// The folder's path as the system resolves it, without components `.` and `..` and without links, where it has such a
/// component; else, and where the system can't resolve it, as it is.
pub fn clean_folder<R: Files + Alloc<A = Global>>(
    rt: &R,
    folder: String,
) -> Result<String, AllocError> {
    if !has_dots(folder.as_str()) {
        return Ok(folder);
    }
    match readable(fs::canonicalize(rt, folder.as_str()))? {
        Some(clean) => Ok(clean.into_string()),
        None => Ok(folder),
    }
}
