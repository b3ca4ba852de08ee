//! Justfiles by the folder that they stand in.
ghost use Rattle.std.specs.Prelude.{◌≡◌, ◌∷◌, ◌++◌, ◌||◌, ℕ, List, [], IfOk, OnOk, cond};
ghost use Rattle.std.specs.List.{list_any};
ghost use Rattle.std.specs.Str.{bytes_eq};
ghost use Rattle.modules_files.specs.Found as spec;
ghost use Rattle.modules_files.specs.Found.{AreGrouped, has_text, keys_at, source_keys};

use std::alloc::{AllocError, Global};
use std::collections::{BTreeMap, BTreeSet};

/// The keys of the files named `justfile` or `.justfile`, in any capitals, by the text before that name.
#[derive(Drop)]
pub struct Folders<'src> {
    pub justfiles: BTreeMap<&'src str, Vec<&'src str>>,
}

/// Whether a justfile may be named so.
fn is_justfile(name: &str) -> bool
    ensures { result ≡ spec.is_justfile name.now }
{
    name.eq_ignore_ascii_case("justfile") || name.eq_ignore_ascii_case(".justfile")
}

/// The text up to the last `/`, with it, and what stands after.
fn cut_name(key: &str) -> (&str, &str)
    ensures folder { result.0.now ≡ spec.folder_of key.now }
    ensures name { result.1.now ≡ spec.name_of key.now }
{
    match key.rfind('/') {
        Some(slash) => key.split_at(slash + 1),
        None => ("", key),
    }
}

impl<'src> Folders<'src> {
    /// The justfiles among these files.
    pub fn new(
        alloc: Global,
        sources: &'src BTreeMap<String, String>,
    ) -> Result<Folders<'src>, AllocError>
        ensures { IfOk result (λ folders. AreGrouped (source_keys sources.now) folders.justfiles) }
    {
        let mut folders = Folders {
            justfiles: BTreeMap::new(alloc),
        };
        for (key, _) in sources {
            folders.add_key(alloc, key.as_str())?;
        }
        Ok(folders)
    }

    /// Puts the key after the others of its folder, if it is that of a justfile.
    fn add_key(&mut self, alloc: Global, key: &'src str) -> Result<(), AllocError>
        ensures { OnOk result ((keys : List (List ℕ)) → AreGrouped keys self.old.justfiles → AreGrouped (keys ++ key.now ∷ []) self.new.justfiles) }
    {
        let (folder, name) = cut_name(key);
        if is_justfile(name) {
            return self.add(alloc, folder, key);
        }
        Ok(())
    }

    /// Puts the key after the others of the folder.
    fn add(&mut self, alloc: Global, folder: &'src str, key: &'src str) -> Result<(), AllocError>
        ensures { OnOk result ((other : List ℕ) → keys_at self.new.justfiles other ≡ cond (bytes_eq folder.now other) (keys_at self.old.justfiles folder.now ++ key.now ∷ []) (keys_at self.old.justfiles other)) }
    {
        match self.justfiles.get_mut(folder) {
            Some(keys) => {
                keys.push(key)?;
                Ok(())
            }
            None => self.begin(alloc, folder, key),
        }
    }

    /// Makes the key the only one of the folder.
    fn begin(&mut self, alloc: Global, folder: &'src str, key: &'src str) -> Result<(), AllocError>
        ensures { OnOk result ((other : List ℕ) → keys_at self.new.justfiles other ≡ cond (bytes_eq folder.now other) (key.now ∷ []) (keys_at self.old.justfiles other)) }
    {
        let mut keys = Vec::new(alloc);
        keys.push(key)?;
        let _ = self.justfiles.insert(folder, keys)?;
        Ok(())
    }

    /// Puts the keys of the folder's justfiles with what was found.
    pub fn find(&self, folder: &str, found: &mut BTreeSet<&'src str>) -> Result<(), AllocError>
        ensures { OnOk result ((key : List ℕ) → has_text found.new key ≡ (has_text found.old key || list_any (bytes_eq key) (keys_at self.now.justfiles folder.now))) }
    {
        match self.justfiles.get(folder) {
            Some(keys) => put_all(found, keys.as_slice()),
            None => Ok(()),
        }
    }
}

/// Puts the keys with what was found.
fn put_all<'src>(found: &mut BTreeSet<&'src str>, keys: &[&'src str]) -> Result<(), AllocError>
    ensures { OnOk result ((key : List ℕ) → has_text found.new key ≡ (has_text found.old key || list_any (bytes_eq key) (spec.borrowed keys.now))) }
{
    for key in keys {
        put(found, *key)?;
    }
    Ok(())
}

/// Puts the key with what was found.
pub fn put<'src>(found: &mut BTreeSet<&'src str>, key: &'src str) -> Result<(), AllocError>
    ensures { OnOk result ((other : List ℕ) → has_text found.new other ≡ (has_text found.old other || bytes_eq other key.now)) }
{
    let _ = found.insert(key)?;
    Ok(())
}
