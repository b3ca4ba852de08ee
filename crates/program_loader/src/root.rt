//! The search for the root file.
use crate::below::is_regular;
use crate::readable::readable;
use crate::root_name::is_root_name;
use crate::walk::ENTRY_LIMIT;
use std::alloc::{AllocError, Global};
use std::fs;
use std::fs::ReadDir;
use std::rt::Files;

/// The names of a folder's entries, as far as they are of use.
#[derive(Drop)]
struct Names {
    /// How many entries there are, but for those whose names are no texts.
    count: usize,
    /// Those that a root file may have.
    roots: Vec<String>,
}

/// Takes an entry in.
fn see(alloc: Global, names: &mut Names, name: &str) -> Result<(), AllocError> {
    names.count = names.count.saturating_add(1);
    if is_root_name(name) {
        names.roots.push(String::from_str(alloc, name)?)?;
    }
    Ok(())
}

/// The names of a folder's entries. None where the folder can't be read.
fn list<R: Files + Alloc<A = Global> + Clone + Drop>(
    rt: &R,
    folder: &str,
) -> Result<Names, AllocError> {
    let alloc = rt.alloc();
    let mut names = Names {
        count: 0,
        roots: Vec::new(alloc),
    };
    let Some(entries) = readable(fs::read_dir(rt, folder))? else {
        return Ok(names);
    };
    for entry in entries {
        if let Some(entry) = readable(entry)? {
            see(alloc, &mut names, entry.file_name())?;
        }
    }
    Ok(names)
}

/// How many entries of a folder come before this name in byte order.
fn rank<R: Files + Alloc<A = Global> + Clone + Drop>(
    rt: &R,
    folder: &str,
    name: &str,
) -> Result<usize, AllocError> {
    let Some(entries) = readable(fs::read_dir(rt, folder))? else {
        return Ok(0);
    };
    let mut before = 0usize;
    for entry in entries {
        if let Some(entry) = readable(entry)? {
            if entry.file_name() < name {
                before = before.saturating_add(1);
            }
        }
    }
    Ok(before)
}

/// Whether the entry is a regular file among the first 100,000 entries.
fn is_found<R: Files + Alloc<A = Global> + Clone + Drop>(
    rt: &R,
    folder: &str,
    name: &str,
    count: usize,
) -> Result<bool, AllocError> {
    if count > ENTRY_LIMIT && rank(rt, folder, name)? >= ENTRY_LIMIT {
        return Ok(false);
    }
    let path = format!(in rt.alloc(); "{folder}/{name}")?;
    is_regular(rt, path.as_str())
}

/// The name of the root file of the folder: the one regular file among its first 100,000 entries, in byte order,
/// that is named `justfile` or `.justfile`, in any capitals. `None` where there is none or more than one, or where the
/// folder can't be read.
pub fn find_root<R: Files + Alloc<A = Global> + Clone + Drop>(
    rt: &R,
    folder: &str,
) -> Result<Option<String>, AllocError> {
    let Names { count, roots } = list(rt, folder)?;
    let mut found = None;
    for name in roots {
        if is_found(rt, folder, name.as_str(), count)? {
            if found.is_some() {
                return Ok(None);
            }
            found = Some(name);
        }
    }
    Ok(found)
}
