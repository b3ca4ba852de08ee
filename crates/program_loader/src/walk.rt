//! The walk over the files below a folder.
use crate::readable::readable;
use crate::text::SIZE_LIMIT;
use std::alloc::{AllocError, Global};
use std::fs;
use std::path::Path;
use std::rt::Files;

/// At most so many entries are looked at.
pub const ENTRY_LIMIT: usize = 100_000;

/// The folder that isn't entered.
pub const GIT: &str = ".git";

/// The files that were found, and the folders to look into.
#[derive(Drop)]
struct Walk {
    /// The paths of the files.
    files: Vec<String>,
    /// The paths of the folders, parents first.
    folders: Vec<String>,
    /// How many entries were looked at.
    looked: usize,
}

/// The names of the folder's entries in byte order. None where it can't be read.
pub fn names_in<R: Files + Alloc<A = Global> + Clone + Drop>(
    rt: &R,
    folder: &str,
) -> Result<Vec<String>, AllocError> {
    let alloc = rt.alloc();
    let mut names = Vec::new(alloc);
    let Some(entries) = readable(fs::read_dir(rt, folder))? else {
        return Ok(names);
    };
    for entry in entries {
        if let Some(entry) = readable(entry)? {
            names.push(String::from_str(alloc, entry.file_name())?)?;
        }
    }
    names.sort_unstable();
    Ok(names)
}

/// The paths of the folder's entries in byte order. None where it can't be read.
fn entries<R: Files + Alloc<A = Global> + Clone + Drop>(
    rt: &R,
    folder: &str,
) -> Result<Vec<String>, AllocError> {
    let alloc = rt.alloc();
    let mut paths = Vec::new(alloc);
    for name in names_in(rt, folder)? {
        let path = Path::new(folder).join(alloc, name.as_str())?;
        paths.push(path.into_string())?;
    }
    Ok(paths)
}

impl Walk {
    /// Looks at the entries of the folders, in the order in which they are found.
    fn go<R: Files + Alloc<A = Global> + Clone + Drop>(
        &mut self,
        rt: &R,
    ) -> Result<(), AllocError> {
        for place in 0..ENTRY_LIMIT {
            let Some(folder) = self.folders.get(place) else {
                return Ok(());
            };
            let paths = entries(rt, folder.as_str())?;
            self.look_at_all(rt, paths)?;
        }
        Ok(())
    }

    /// Looks at these entries, as long as the limit isn't reached.
    fn look_at_all<R: Files>(&mut self, rt: &R, paths: Vec<String>) -> Result<(), AllocError> {
        for path in paths {
            if self.looked >= ENTRY_LIMIT {
                return Ok(());
            }
            self.looked += 1;
            self.look_at(rt, path)?;
        }
        Ok(())
    }

    /// Keeps a folder to look into later, or a file.
    fn look_at<R: Files>(&mut self, rt: &R, path: String) -> Result<(), AllocError> {
        let Some(found) = readable(fs::symlink_metadata(rt, path.as_str()))? else {
            return Ok(());
        };
        if found.is_dir() {
            return self.keep_folder(path);
        }
        if found.is_file() && found.len() <= SIZE_LIMIT {
            self.files.push(path)?;
        }
        Ok(())
    }

    /// Keeps a folder to look into later, unless it is named `.git`.
    fn keep_folder(&mut self, path: String) -> Result<(), AllocError> {
        let is_git = match path.as_str().rsplit_once('/') {
            Some((_, name)) => name == GIT,
            None => path.as_str() == GIT,
        };
        if !is_git {
            self.folders.push(path)?;
        }
        Ok(())
    }
}

/// The paths of the regular files of at most 1 MiB below the folder. Folders named `.git` and links are not entered, and no
/// more than 100,000 entries are looked at: those of a folder in byte order, and parents before what lies in them. What
/// can't be read is left out.
pub fn files_below<R: Files + Alloc<A = Global> + Clone + Drop>(
    rt: &R,
    folder: &str,
) -> Result<Vec<String>, AllocError> {
    let alloc = rt.alloc();
    let mut folders = Vec::new(alloc);
    folders.push(String::from_str(alloc, folder)?)?;
    let mut walk = Walk {
        files: Vec::new(alloc),
        folders,
        looked: 0,
    };
    walk.go(rt)?;
    Ok(walk.files)
}
