//! The files of a module.
ghost use Rattle.std.specs.Prelude.{◌≡◌, ◌≢◌, ◌+◌, ◌++◌, ◌∷◌, [], ℕ, List, IfErr, IfOk, OnOk, Ok, Err, Option, Some, false, true, length, map, not, option_to_list, slice_get};
ghost use Rattle.modules_compilation.specs.declared.error.Error.TheVariants as refusals;
ghost use Rattle.modules_files.specs.Chosen.{File as SourceFile, view};
ghost use Rattle.resolve_order.specs.Needs.{IsCycle, rows};
ghost use Rattle.modules_sources.specs.Imports.{import_answer};
ghost use Rattle.modules_sources.specs.Imports as spec;
ghost use Rattle.modules_sources.specs.Items.{import_of as said_import, key_of};
ghost use Rattle.modules_sources.specs.Queue.{is_among};
ghost use Rattle.modules_sources.specs.Reached.{ArePlaces, AreReached, IsFollowed, IsStepBack, new_files, with_key, with_new};

use crate::items::{import_of, items_of};
use modules_compilation::{Error, File, Source};
use modules_files::imported;
use resolve_order::{OrderFault, order};
use std::alloc::{AllocError, Global};
use std::collections::BTreeMap;
use tree_items::Item;

/// The files that a module has reached, by key, and which of them each one imports. A file is told by
/// its place among those of the module.
#[derive(Drop)]
pub struct Reached<'src> {
    places: BTreeMap<&'src str, usize>,
    imports: Vec<Vec<usize>>,
}

/// The place of a file that was reached, and whether it was not reached before.
#[derive(Clone, Copy)]
struct Reach {
    place: usize,
    is_new: bool,
}

/// Puts the file that the item imports after what was found, if it imports one. Refused as `imported`
/// refuses it.
fn add_import<'src>(
    alloc: Global,
    item: &Item<'src>,
    key: &str,
    sources: &'src BTreeMap<String, String>,
    found: &mut Vec<Source<'src>>,
) -> Result<(), Error<'src>>
    ensures found { OnOk result ((source : Option SourceFile) × (import_answer sources.now key.now (said_import item.now) ≡ Ok source) × (map view found.new.items ≡ map view found.old.items ++ option_to_list source)) }
    ensures refused { IfErr result (λ refusal. refusal ≢ refusals.OutOfMemory → import_answer sources.now key.now (said_import item.now) ≡ Err refusal) }
{
    let Some(import) = import_of(item) else {
        return Ok(());
    };
    let Some(source) = imported(alloc, sources, key, import)? else {
        return Ok(());
    };
    found.push(source)?;
    Ok(())
}

/// The files that the imports among the items of a file name, in their order. Refused as `imported`
/// refuses one.
fn imports_among<'src>(
    alloc: Global,
    items: &[Item<'src>],
    key: &str,
    sources: &'src BTreeMap<String, String>,
) -> Result<Vec<Source<'src>>, Error<'src>>
    ensures found { IfOk result (λ found. spec.imports_among sources.now key.now items.now ≡ Ok (map view found.items)) }
    ensures refused { IfErr result (λ refusal. refusal ≢ refusals.OutOfMemory → spec.imports_among sources.now key.now items.now ≡ Err refusal) }
{
    let mut found = Vec::new(alloc);
    for item in items {
        add_import(alloc, item, key, sources, &mut found)?;
    }
    Ok(found)
}

/// The files that the imports of the file at the place name, in their order; none where there is no
/// file. Refused as `imported` refuses one.
fn imports_at<'src>(
    alloc: Global,
    files: &[File<'src>],
    place: usize,
    sources: &'src BTreeMap<String, String>,
) -> Result<Vec<Source<'src>>, Error<'src>>
    ensures found { IfOk result (λ found. spec.imports_at sources.now files.now place ≡ Ok (map view found.items)) }
    ensures refused { IfErr result (λ refusal. refusal ≢ refusals.OutOfMemory → spec.imports_at sources.now files.now place ≡ Err refusal) }
{
    if place >= files.len() {
        return Ok(Vec::new(alloc));
    }
    imports_among(alloc, items_of(&files[place]), files[place].key, sources)
}

impl<'src> Reached<'src> {
    /// No file.
    pub fn new(alloc: Global) -> Reached<'src>
        ensures reached { AreReached [] result }
        ensures imports { result.imports.items ≡ [] }
    {
        Reached {
            places: BTreeMap::new(alloc),
            imports: Vec::new(alloc),
        }
    }

    /// The place of the file; it is the next one where the file was not reached before.
    fn reach(&mut self, key: &'src str) -> Result<Reach, AllocError>
        ensures reached { OnOk result ((keys : List (List ℕ)) → AreReached keys self.old → AreReached (with_key keys key.now) self.new) }
        ensures place { IfOk result (λ reach. (keys : List (List ℕ)) → AreReached keys self.old → slice_get (with_key keys key.now) reach.place ≡ Some key.now) }
        ensures is_new { IfOk result (λ reach. (keys : List (List ℕ)) → AreReached keys self.old → reach.is_new ≡ not (is_among keys key.now)) }
        ensures imports { OnOk result (self.new.imports ≡ self.old.imports) }
    {
        match self.places.get(key) {
            Some(place) => Ok(Reach {
                place: *place,
                is_new: false,
            }),
            None => self.add(key),
        }
    }

    /// The next place, for the file, which was not reached before.
    fn add(&mut self, key: &'src str) -> Result<Reach, AllocError>
        ensures reached { OnOk result ((keys : List (List ℕ)) → AreReached keys self.old → is_among keys key.now ≡ false → AreReached (keys ++ key.now ∷ []) self.new) }
        ensures reach { IfOk result (λ reach. (reach.place ≡ length self.old.places.entries) × (reach.is_new ≡ true)) }
        ensures imports { OnOk result (self.new.imports ≡ self.old.imports) }
    {
        let place = self.places.len();
        self.places.insert(key, place)?;
        Ok(Reach {
            place,
            is_new: true,
        })
    }

    /// Reaches the module's own file.
    pub fn begin(&mut self, key: &'src str) -> Result<(), AllocError>
        ensures reached { OnOk result ((keys : List (List ℕ)) → AreReached keys self.old → AreReached (with_key keys key.now) self.new) }
        ensures imports { OnOk result (self.new.imports ≡ self.old.imports) }
    {
        self.reach(key)?;
        Ok(())
    }

    /// Reaches the file, which the next one imports, and puts it after the new ones if it is new.
    fn reach_import(
        &mut self,
        source: Source<'src>,
        row: &mut Vec<usize>,
        new: &mut Vec<Source<'src>>,
    ) -> Result<(), AllocError>
        ensures reached { OnOk result ((keys : List (List ℕ)) → AreReached keys self.old → AreReached (with_key keys source.entry.key.now) self.new) }
        ensures place { OnOk result ((keys : List (List ℕ)) → AreReached keys self.old → (place : ℕ) × (slice_get (with_key keys source.entry.key.now) place ≡ Some source.entry.key.now) × (row.new.items ≡ row.old.items ++ place ∷ [])) }
        ensures told { OnOk result ((keys : List (List ℕ)) → AreReached keys self.old → map view new.new.items ≡ map view new.old.items ++ new_files keys (view source.entry ∷ [])) }
        ensures imports { OnOk result (self.new.imports ≡ self.old.imports) }
    {
        let reach = self.reach(source.key)?;
        row.push(reach.place)?;
        if !reach.is_new {
            return Ok(());
        }
        new.push(source)?;
        Ok(())
    }

    /// Reaches what the next file imports, and answers the files that are new, in their order.
    fn reach_imports(
        &mut self,
        alloc: Global,
        found: &[Source<'src>],
    ) -> Result<Vec<Source<'src>>, AllocError>
        ensures { IfOk result (λ new. (keys : List (List ℕ)) → AreReached keys self.old → IsFollowed keys (map view found.now) self.old self.new (map view new.items)) }
    {
        let mut row = Vec::new(alloc);
        let mut new = Vec::new(alloc);
        for source in found {
            self.reach_import(*source, &mut row, &mut new)?;
        }
        self.imports.push(row)?;
        Ok(new)
    }

    /// Reaches what the next file of the module imports, which is that at the place, and answers the
    /// files that are new, in their order. Refused as `imported` refuses an import.
    pub fn follow(
        &mut self,
        alloc: Global,
        sources: &'src BTreeMap<String, String>,
        files: &[File<'src>],
        place: usize,
    ) -> Result<Vec<Source<'src>>, Error<'src>>
        ensures followed { IfOk result (λ new. (found : List SourceFile) × (spec.imports_at sources.now files.now place ≡ Ok found) × ((keys : List (List ℕ)) → AreReached keys self.old → IsFollowed keys found self.old self.new (map view new.items))) }
        ensures refused { IfErr result (λ refusal. refusal ≢ refusals.OutOfMemory → spec.imports_at sources.now files.now place ≡ Err refusal) }
    {
        let found = imports_at(alloc, files, place, sources)?;
        let new = self.reach_imports(alloc, found.as_slice())?;
        Ok(new)
    }

    /// Refuses files that import themselves through others, as `CircularImport`; the module's files
    /// begin at the place `first` of `files`.
    pub fn check(
        &self,
        alloc: Global,
        files: &[File<'src>],
        first: usize,
    ) -> Result<(), Error<'src>>
        ensures no_cycle { OnOk result ((places : List ℕ) → IsCycle (rows self.now.imports.items) places → ⊥) }
        ensures cycle { IfErr result (λ refusal. refusal ≢ refusals.OutOfMemory → IsStepBack (rows self.now.imports.items) files.now first refusal) }
    {
        match order(alloc, self.imports.as_slice()) {
            Ok(_) => Ok(()),
            Err(OrderFault::OutOfMemory) => Err(Error::OutOfMemory),
            Err(OrderFault::Cycle(places)) => Err(circular(files, first, places.as_slice())),
        }
    }
}

/// The key of the file at the place, empty where there is none.
pub fn key_at<'src>(files: &[File<'src>], place: usize) -> &'src str
    ensures { result.now ≡ key_of (slice_get files.now place) }
{
    if place >= files.len() {
        return "";
    }
    files[place].key
}

/// The key of the file at the place, counted from `first` on, empty where there is none.
fn key_behind<'src>(files: &[File<'src>], first: usize, place: usize) -> &'src str
    ensures { result.now ≡ key_of (slice_get files.now (first + place)) }
{
    if first >= files.len() {
        return "";
    }
    if place >= files.len() - first {
        return "";
    }
    files[first + place].key
}

/// How many imports lead to what the file at the place imports.
pub fn depth_behind(files: &[File<'_>], place: usize) -> u32
    ensures { result ≡ spec.depth_behind (slice_get files.now place) }
{
    if place >= files.len() {
        return 0;
    }
    files[place].depth.saturating_add(1)
}

/// The refusal of a cycle of imports: the first that leads to a file that was reached no later. The
/// places are counted from `first` on.
fn circular<'src>(files: &[File<'src>], first: usize, places: &[usize]) -> Error<'src>
    ensures { (imports : List (List ℕ)) → IsCycle imports places.now → IsStepBack imports files.now first result }
{
    let mut rest = places;
    while let [current, import, ..] = rest {
        if import <= current {
            return Error::CircularImport {
                current: key_behind(files, first, *current),
                import: key_behind(files, first, *import),
            };
        }
        rest = &rest[1..];
    }
    Error::CircularImport {
        current: "",
        import: "",
    }
}
