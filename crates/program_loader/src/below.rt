//! Files and folders at paths below a folder.
use crate::reach::Reach;
use crate::readable::readable;
use crate::root_name::is_root_name;
use crate::walk::names_in;
use std::alloc::{AllocError, Global};
use std::fs;
use std::rt::Files;

/// Whether the path is that of a regular file, which a link is not.
pub fn is_regular<R: Files>(rt: &R, path: &str) -> Result<bool, AllocError> {
    match readable(fs::symlink_metadata(rt, path))? {
        Some(found) => Ok(found.is_file()),
        None => Ok(false),
    }
}

/// Whether the path is that of a folder, which a link is not.
pub fn is_folder<R: Files>(rt: &R, path: &str) -> Result<bool, AllocError> {
    match readable(fs::symlink_metadata(rt, path))? {
        Some(found) => Ok(found.is_dir()),
        None => Ok(false),
    }
}

/// Whether the path below the folder of what is reached is that of a regular file; none after a link or in a folder named
/// `.git` is. Refused only where memory is.
pub fn is_file_below<R: Files + Alloc<A = Global>>(
    rt: &R,
    reach: &mut Reach<'_>,
    path: &str,
) -> Result<bool, AllocError> {
    if !reach.leads_to(rt, path)? {
        return Ok(false);
    }
    let folder = reach.folder();
    let path = format!(in rt.alloc(); "{folder}/{path}")?;
    is_regular(rt, path.as_str())
}

/// Whether a submodule without a path of its own may have a file of this name in its folder.
fn is_module_file(name: &str) -> bool {
    name == "mod.just" || is_root_name(name)
}

/// The paths of the entries that a submodule may have as its file, of a folder at this path below the other one, in byte
/// order; the path is empty or ends in `/`. None where the folder is no folder that is entered, or can't be read. Refused
/// only where memory is.
pub fn module_files<R: Files + Alloc<A = Global> + Clone + Drop>(
    rt: &R,
    reach: &mut Reach<'_>,
    path: &str,
) -> Result<Vec<String>, AllocError> {
    let alloc = rt.alloc();
    let mut files = Vec::new(alloc);
    if !reach.leads_to(rt, path)? {
        return Ok(files);
    }
    let folder = reach.folder();
    let whole = format!(in alloc; "{folder}/{path}")?;
    for name in names_in(rt, whole.as_str())? {
        if is_module_file(name.as_str()) {
            files.push(format!(in alloc; "{path}{name}")?)?;
        }
    }
    Ok(files)
}
