//! Files that imports and submodules name.
ghost use Rattle.std.specs.Prelude.{◌≡◌, ◌||◌, ◌++◌, ℕ, List, OnOk, IfOk, Some, None, option_map};
ghost use Rattle.std.specs.String.{string_bytes};
ghost use Rattle.just_text.specs.Tokens.{lexeme};
ghost use Rattle.modules_compilation.specs.Paths as paths;
ghost use Rattle.modules_files.specs.Found as spec;
ghost use Rattle.modules_files.specs.Found.{has_text, is_inside, is_inside_at, is_key, is_placed_if, may_mean};

use crate::folders::{Folders, put};
use crate::lines::ModuleLine;
use modules_compilation::{Source, folder_from, key_from};
use std::alloc::{AllocError, Global};
use std::collections::{BTreeMap, BTreeSet};

/// The files that can be reached.
#[derive(Clone, Copy)]
pub struct Files<'src, 'a> {
    pub sources: &'src BTreeMap<String, String>,
    pub folders: &'a Folders<'src>,
}

/// The file at the key, if there is one.
pub fn file_at<'src>(sources: &'src BTreeMap<String, String>, key: &str) -> Option<Source<'src>>
    ensures { option_map (λ source. (source.key.now, source.text.now)) result ≡ spec.file_at sources.now (Some key.now) }
{
    match sources.get_key_value(key) {
        Some((key, text)) => Some(Source {
            key: key.as_str(),
            text: text.as_str(),
        }),
        None => None,
    }
}

/// The file at the key, if there is one.
pub fn find_key<'src>(
    sources: &'src BTreeMap<String, String>,
    key: &Option<String>,
) -> Option<Source<'src>>
    ensures { option_map (λ source. (source.key.now, source.text.now)) result ≡ spec.file_at sources.now (option_map string_bytes key.now) }
{
    match key {
        Some(key) => file_at(sources, key.as_str()),
        None => None,
    }
}

impl<'src, 'a> Files<'src, 'a> {
    /// Puts the key with what was found, if there is a file.
    fn add_key(
        &self,
        key: &Option<String>,
        found: &mut BTreeSet<&'src str>,
    ) -> Result<(), AllocError>
        ensures { OnOk result ((other : List ℕ) → has_text found.new other ≡ (has_text found.old other || is_key self.now.sources.now (option_map string_bytes key.now) other)) }
    {
        match find_key(self.sources, key) {
            Some(source) => put(found, source.key),
            None => Ok(()),
        }
    }

    /// Puts the keys of the justfiles and of `mod.just` of the folder with what was found.
    fn add_folder(
        &self,
        alloc: Global,
        folder: &str,
        found: &mut BTreeSet<&'src str>,
    ) -> Result<(), AllocError>
        ensures { OnOk result ((other : List ℕ) → has_text found.new other ≡ (has_text found.old other || is_inside self.now.sources.now self.now.folders.now.justfiles folder.now other)) }
    {
        self.folders.find(folder, found)?;
        let key = Some(format!(in alloc; "{folder}mod.just")?);
        self.add_key(&key, found)
    }

    /// Puts the keys of the justfiles and of `mod.just` of the folder that the path names with what was
    /// found.
    fn find_folder(
        &self,
        alloc: Global,
        file: &str,
        path: &str,
        found: &mut BTreeSet<&'src str>,
    ) -> Result<(), AllocError>
        ensures { OnOk result ((other : List ℕ) → has_text found.new other ≡ (has_text found.old other || is_inside_at self.now.sources.now self.now.folders.now.justfiles (paths.folder_from file.now path.now) other)) }
    {
        match folder_from(alloc, file, path)? {
            Some(folder) => self.add_folder(alloc, folder.as_str(), found),
            None => Ok(()),
        }
    }

    /// Puts the key that the path names with what was found, if there is a file.
    fn find_file(
        &self,
        alloc: Global,
        file: &str,
        path: &str,
        found: &mut BTreeSet<&'src str>,
    ) -> Result<(), AllocError>
        ensures { OnOk result ((other : List ℕ) → has_text found.new other ≡ (has_text found.old other || is_key self.now.sources.now (paths.key_from file.now path.now) other)) }
    {
        let key = key_from(alloc, file, path)?;
        self.add_key(&key, found)
    }

    /// Puts the keys that a submodule without a path may mean with what was found.
    fn find_named(
        &self,
        alloc: Global,
        file: &str,
        name: &str,
        found: &mut BTreeSet<&'src str>,
    ) -> Result<(), AllocError>
        ensures { OnOk result ((other : List ℕ) → has_text found.new other ≡ (has_text found.old other || may_mean self.now.sources.now self.now.folders.now.justfiles file.now name.now None other)) }
    {
        let beside = format!(in alloc; "{name}.just")?;
        self.find_file(alloc, file, beside.as_str(), found)?;
        self.find_folder(alloc, file, name, found)
    }

    /// Puts the keys that a submodule with this path may mean with what was found: that which it names,
    /// or those of its folder where there is no such file.
    fn find_placed(
        &self,
        alloc: Global,
        file: &str,
        path: &str,
        found: &mut BTreeSet<&'src str>,
    ) -> Result<(), AllocError>
        ensures { (name : List ℕ) → OnOk result ((other : List ℕ) → has_text found.new other ≡ (has_text found.old other || may_mean self.now.sources.now self.now.folders.now.justfiles file.now name (Some path.now) other)) }
    {
        let key = key_from(alloc, file, path)?;
        match find_key(self.sources, &key) {
            Some(source) => put(found, source.key),
            None => self.find_folder(alloc, file, path, found),
        }
    }

    /// Puts the keys that the submodule of the file with this key may mean with what was found.
    fn find_candidates(
        &self,
        alloc: Global,
        file: &str,
        line: &ModuleLine<'_, 'src>,
        found: &mut BTreeSet<&'src str>,
    ) -> Result<(), AllocError>
        ensures { OnOk result ((other : List ℕ) → has_text found.new other ≡ (has_text found.old other || may_mean self.now.sources.now self.now.folders.now.justfiles file.now (lexeme line.now.name.token) (option_map (λ path. path.now) line.now.path) other)) }
    {
        match line.path {
            Some(path) => self.find_placed(alloc, file, path, found),
            None => self.find_named(alloc, file, line.name.lexeme(), found),
        }
    }

    /// The keys that the submodule of the file with this key may mean.
    pub fn candidates(
        &self,
        alloc: Global,
        file: &str,
        line: &ModuleLine<'_, 'src>,
    ) -> Result<BTreeSet<&'src str>, AllocError>
        ensures { IfOk result (λ found. (key : List ℕ) → has_text found key ≡ may_mean self.now.sources.now self.now.folders.now.justfiles file.now (lexeme line.now.name.token) (option_map (λ path. path.now) line.now.path) key) }
    {
        let mut found = BTreeSet::new(alloc);
        self.find_candidates(alloc, file, line, &mut found)?;
        Ok(found)
    }
}
