//! The texts of a project.
use crate::below::{is_file_below, module_files};
use crate::reach::Reach;
use crate::search::{Named, Search};
use crate::text::text_of;
use crate::walk::{ENTRY_LIMIT, files_below};
use std::alloc::{AllocError, Global};
use std::collections::BTreeMap;
use std::rt::Files;

/// The texts that were read below a folder.
#[derive(Drop)]
struct Sources<'a> {
    /// The folder's path.
    folder: &'a str,
    /// Which folders below it are entered.
    reach: Reach<'a>,
    /// The texts by the paths of their files below the folder.
    texts: BTreeMap<String, String>,
}

/// A file's path below the folder, of its whole path.
fn path_below<'a>(folder: &str, path: &'a str) -> Option<&'a str> {
    let rest = path.strip_prefix(folder)?;
    Some(rest.strip_prefix('/').unwrap_or(rest))
}

impl<'a> Sources<'a> {
    /// The text of the file, if it has one and wasn't read yet.
    fn new_text<R: Files + Alloc<A = Global>>(
        &self,
        rt: &R,
        file: &str,
    ) -> Result<Option<String>, AllocError> {
        if self.texts.contains_key(file) {
            return Ok(None);
        }
        let folder = self.folder;
        let path = format!(in rt.alloc(); "{folder}/{file}")?;
        text_of(rt, path.as_str())
    }

    /// Keeps the text of the file.
    fn keep(&mut self, alloc: Global, file: &str, text: String) -> Result<(), AllocError> {
        self.texts.insert(String::from_str(alloc, file)?, text)?;
        Ok(())
    }

    /// Reads the file, if it is one and wasn't read yet, and takes in what it names.
    fn read<R: Files + Alloc<A = Global>>(
        &mut self,
        rt: &R,
        search: &mut Search,
        file: &str,
    ) -> Result<(), AllocError> {
        if !is_file_below(rt, &mut self.reach, file)? {
            return Ok(());
        }
        let Some(text) = self.new_text(rt, file)? else {
            return Ok(());
        };
        search.see_text(file, text.as_str())?;
        self.keep(rt.alloc(), file, text)
    }

    /// Takes in the files of the folder that a submodule may have.
    fn look_into<R: Files + Alloc<A = Global> + Clone + Drop>(
        &mut self,
        rt: &R,
        search: &mut Search,
        folder: &str,
    ) -> Result<(), AllocError> {
        for file in module_files(rt, &mut self.reach, folder)? {
            search.add_file(file)?;
        }
        Ok(())
    }

    /// Looks at what was named: reads the file, or looks into the folder.
    fn look_at<R: Files + Alloc<A = Global> + Clone + Drop>(
        &mut self,
        rt: &R,
        search: &mut Search,
        named: Named,
    ) -> Result<(), AllocError> {
        match named {
            Named::File(file) => self.read(rt, search, file.as_str()),
            Named::Folder(folder) => self.look_into(rt, search, folder.as_str()),
        }
    }

    /// Looks at what was named, and at what the files among it name.
    fn read_named<R: Files + Alloc<A = Global> + Clone + Drop>(
        &mut self,
        rt: &R,
        search: &mut Search,
    ) -> Result<(), AllocError> {
        for _ in 0..ENTRY_LIMIT {
            let Some(named) = search.next() else {
                return Ok(());
            };
            self.look_at(rt, search, named)?;
        }
        Ok(())
    }

    /// Reads all files below the folder that weren't read yet.
    fn read_all<R: Files + Alloc<A = Global> + Clone + Drop>(
        &mut self,
        rt: &R,
    ) -> Result<(), AllocError> {
        for path in files_below(rt, self.folder)? {
            self.read_path(rt, path.as_str())?;
        }
        Ok(())
    }

    /// Reads the file at the path, if it wasn't read yet.
    fn read_path<R: Files + Alloc<A = Global>>(
        &mut self,
        rt: &R,
        path: &str,
    ) -> Result<(), AllocError> {
        let Some(file) = path_below(self.folder, path) else {
            return Ok(());
        };
        match self.new_text(rt, file)? {
            Some(text) => self.keep(rt.alloc(), file, text),
            None => Ok(()),
        }
    }

    /// Reads the files that the text of the root file may reach.
    fn read_reached<R: Files + Alloc<A = Global> + Clone + Drop>(
        &mut self,
        rt: &R,
        root: &str,
        text: &str,
    ) -> Result<(), AllocError> {
        let mut search = Search::new(rt.alloc());
        search.see_text(root, text)?;
        self.read_named(rt, &mut search)?;
        if search.is_any() {
            return self.read_all(rt);
        }
        Ok(())
    }
}

/// The texts that the justfile of this name in the folder may reach, by their paths below the folder: its own, and those of
/// the regular UTF-8 files of at most 1 MiB below the folder that it names, or a file that it reaches; all files below the
/// folder are read where a path is written so that its text is another one. A file is named by the path of an import or a
/// submodule, or as the file that a submodule without a path may have; what stands in the body of a recipe names none. Of
/// folders only those are entered that lead to what is named, and of these none that is a link or named `.git`. No more than
/// 100,000 of the files and folders that are named are looked at, in the order in which they are, and where all files are
/// read no more than 100,000 entries more: those of a folder in byte order, and parents before what lies in them. What can't
/// be read is left out.
pub fn load<R: Files + Alloc<A = Global> + Clone + Drop>(
    rt: &R,
    folder: &str,
    name: &str,
) -> Result<BTreeMap<String, String>, AllocError> {
    let alloc = rt.alloc();
    let mut sources = Sources {
        folder,
        reach: Reach::new(alloc, folder),
        texts: BTreeMap::new(alloc),
    };
    let Some(text) = sources.new_text(rt, name)? else {
        return Ok(sources.texts);
    };
    sources.read_reached(rt, name, text.as_str())?;
    sources.keep(alloc, name, text)?;
    Ok(sources.texts)
}
