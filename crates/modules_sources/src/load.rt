//! Loading files into modules.
ghost use Rattle.std.specs.Prelude.{◌≡◌, ◌≢◌, ◌+◌, ◌-◌, ◌++◌, ◌∷◌, [], ◌<◌, ◌≤◌, ℕ, Bool, length, map, drop, List, None, Ok, Err, true, false, IfErr, IfOk, OnOk};
ghost use Rattle.modules_compilation.specs.Paths.{is_clean};
ghost use Rattle.modules_compilation.specs.declared.error.Error.TheVariants as refusals;
ghost use Rattle.modules_compilation.specs.declared.module_node.File.{File as LoadedFile};
ghost use Rattle.modules_files.specs.Chosen.{view};
ghost use Rattle.modules_files.specs.Found.{AreGrouped, source_keys};
ghost use Rattle.just_text.specs.Numbers.{Numbers};
ghost use Rattle.modules_compilation.specs.declared.module_node.ModuleNode.{ModuleNode};
ghost use Rattle.modules_sources.specs.Loaded.{AreLoaded, AreLoadedSoFar, IsBegun, IsBelowRefused, IsLoadRefused, IsNextRefused, IsRefused, IsRootMissing, IsRootRead, IsSource, first_numbers};
ghost use Rattle.modules_sources.specs.Loading.{AreRead, IsRead, IsTurn, IsTurnRefused, IsUnread, IsUnreadAmong, refusal_by};
ghost use Rattle.modules_sources.specs.Nodes.{IsNodeOf, IsNoted};
ghost use Rattle.modules_sources.specs.Queue.{AreKeysOf, IsChain, chain_keys, cut_to, entered, is_among};
ghost use Rattle.modules_sources.specs.ReadingOrder.{AreFilesOf, AreNoted, AreNumbered, AreRefused, IsModuleRefused, IsOwnAlone, IsRefusedBehind};
ghost use Rattle.modules_sources.specs.Submodules.{Above, AreWaiting, IsRefusedAmong, Waiting, waiting_view};

use crate::imports::{Reached, depth_behind};
use crate::nodes::add_node;
use crate::queue::{Pending, Queue};
use crate::submodules::find_all;
use just_host::Config;
use just_text::CompileErrorKind;
use just_value::CONSTANT_COUNT;
use justfile_syntax::{Ast, CompileError, Expander, Numerator, Os, Parser};
use modules_compilation::{Compilation, Error, File, Source, is_clean};
use modules_files::{Files, Folders, file_at};
use std::alloc::{AllocError, Global};
use std::collections::BTreeMap;

/// A root file that has been read, and which numbers are taken after it.
pub struct Parsed<'src> {
    pub ast: Ast<'src>,
    pub numerator: Numerator,
}

/// What loading is given: the configuration, the expander and the files.
struct Loader<'src, 'a, E> {
    config: &'a Config,
    expander: &'a E,
    files: Files<'src, 'a>,
}

impl<E> Clone for Loader<'_, '_, E> {
    fn clone(&self) -> Result<Self, AllocError> {
        Ok(*self)
    }
}

impl<E> Copy for Loader<'_, '_, E> {}

/// The refusal of a text.
fn refusal_of<'src>(error: CompileError<'src>) -> Error<'src>
    ensures { result ≡ refusal_by error.entry.kind error.entry }
{
    match error.kind {
        CompileErrorKind::OutOfMemory => Error::OutOfMemory,
        _ => Error::Syntax(error),
    }
}

/// The file for the module, with its tree. Refused as the parser refuses its text.
fn read_file<'src, E: Expander>(
    alloc: Global,
    config: &Config,
    expander: &E,
    numerator: &mut Numerator,
    source: Source<'src>,
    module: usize,
    depth: u32,
) -> Result<File<'src>, Error<'src>>
    ensures read { IfOk result (λ file. IsRead (E.expansion expander.now) config.now.version «module» depth (view source.entry) numerator.old numerator.new file) }
    ensures refused { IfErr result (λ refusal. IsUnread (E.expansion expander.now) config.now.version «module» depth (view source.entry) numerator.new refusal) }
{
    let version = &config.version;
    match Parser::parse_source(alloc, source.key, source.text, expander, version, numerator) {
        Ok(ast) => Ok(File {
            key: source.key,
            module,
            depth,
            ast,
        }),
        Err(error) => Err(refusal_of(error)),
    }
}

/// Puts the file after the others, if it was read.
fn add_file<'src>(
    files: &mut Vec<File<'src>>,
    read: Result<File<'src>, Error<'src>>,
) -> Result<(), Error<'src>>
    ensures added { OnOk result ((file : LoadedFile) × (read.entry ≡ Ok file) × (files.new.items ≡ files.old.items ++ file ∷ [])) }
    ensures refused { IfErr result (λ refusal. refusal ≢ refusals.OutOfMemory → read.entry ≡ Err refusal) }
{
    let file = read?;
    files.push(file)?;
    Ok(())
}

impl<'src, 'a, E: Expander> Loader<'src, 'a, E> {
    /// Loads the file for the module, and puts it after the others.
    fn load_file(
        &self,
        alloc: Global,
        files: &mut Vec<File<'src>>,
        numerator: &mut Numerator,
        source: Source<'src>,
        module: usize,
        depth: u32,
    ) -> Result<(), Error<'src>>
        ensures read { OnOk result ((file : LoadedFile) × IsRead (E.expansion self.now.expander.now) self.now.config.now.version «module» depth (view source.entry) numerator.old numerator.new file × (files.new.items ≡ files.old.items ++ file ∷ [])) }
        ensures refused { IfErr result (λ refusal. refusal ≢ refusals.OutOfMemory → IsUnread (E.expansion self.now.expander.now) self.now.config.now.version «module» depth (view source.entry) numerator.new refusal) }
    {
        let read = read_file(
            alloc,
            self.config,
            self.expander,
            numerator,
            source,
            module,
            depth,
        );
        add_file(files, read)
    }

    /// Loads the files for the module, and puts them after the others.
    fn load_new(
        &self,
        alloc: Global,
        files: &mut Vec<File<'src>>,
        numerator: &mut Numerator,
        new: &[Source<'src>],
        module: usize,
        depth: u32,
    ) -> Result<(), Error<'src>>
        ensures read { OnOk result ((more : List LoadedFile) × AreRead (E.expansion self.now.expander.now) self.now.config.now.version «module» depth (map view new.now) numerator.old more numerator.new × (files.new.items ≡ files.old.items ++ more)) }
        ensures refused { IfErr result (λ refusal. refusal ≢ refusals.OutOfMemory → IsUnreadAmong (E.expansion self.now.expander.now) self.now.config.now.version «module» depth (map view new.now) numerator.old refusal) }
    {
        for source in new {
            self.load_file(alloc, files, numerator, *source, module, depth)?;
        }
        Ok(())
    }

    /// Loads what the file at the place imports and the module has not reached yet. False where there
    /// is no such file.
    fn load_imports(
        &self,
        alloc: Global,
        files: &mut Vec<File<'src>>,
        numerator: &mut Numerator,
        reached: &mut Reached<'src>,
        module: usize,
        place: usize,
    ) -> Result<bool, Error<'src>>
        ensures turn { IfOk result (λ followed. followed ≡ true → IsTurn self.now.files.sources.now (E.expansion self.now.expander.now) self.now.config.now.version «module» place files.old.items files.new.items reached.old reached.new numerator.old numerator.new) }
        ensures ended { IfOk result (λ followed. followed ≡ false → (length files.old.items ≤ place) × (files.new ≡ files.old) × (reached.new ≡ reached.old) × (numerator.new ≡ numerator.old)) }
        ensures refused { IfErr result (λ refusal. refusal ≢ refusals.OutOfMemory → IsTurnRefused self.now.files.sources.now (E.expansion self.now.expander.now) self.now.config.now.version «module» place files.old.items reached.old numerator.old refusal) }
    {
        let all = files.as_slice();
        if place >= all.len() {
            return Ok(false);
        }
        let depth = depth_behind(all, place);
        let new = reached.follow(alloc, self.files.sources, all, place)?;
        self.load_new(alloc, files, numerator, new.as_slice(), module, depth)?;
        Ok(true)
    }

    /// Loads all that the module's file at the place `first` imports, in reading order, as far as the
    /// module has not reached it.
    fn load_reached(
        &self,
        alloc: Global,
        files: &mut Vec<File<'src>>,
        numerator: &mut Numerator,
        reached: &mut Reached<'src>,
        module: usize,
        first: usize,
    ) -> Result<(), Error<'src>>
        ensures numbers { OnOk result ((start : Numbers) → AreNumbered start files.old.items numerator.old → AreNumbered start files.new.items numerator.new) }
        ensures grown { OnOk result ((more : List LoadedFile) × (files.new.items ≡ files.old.items ++ more)) }
        ensures noted { OnOk result ((own : List ℕ) → first ≤ length files.old.items → AreNoted self.now.files.sources.now (E.expansion self.now.expander.now) self.now.config.now.version «module» own 0 (drop first files.old.items) reached.old → AreNoted self.now.files.sources.now (E.expansion self.now.expander.now) self.now.config.now.version «module» own (length (drop first files.new.items)) (drop first files.new.items) reached.new) }
        ensures refused { IfErr result (λ refusal. refusal ≢ refusals.OutOfMemory → (own : List ℕ) → first ≤ length files.old.items → AreNoted self.now.files.sources.now (E.expansion self.now.expander.now) self.now.config.now.version «module» own 0 (drop first files.old.items) reached.old → IsRefusedBehind self.now.files.sources.now (E.expansion self.now.expander.now) self.now.config.now.version «module» own first refusal) }
    {
        let end = first.saturating_add(self.files.sources.len());
        for place in first..end {
            if !self.load_imports(alloc, files, numerator, reached, module, place)? {
                return Ok(());
            }
        }
        Ok(())
    }

    /// Loads all that the module's file at the place `first` imports, in reading order.
    ///
    /// Refused as the parser and imports are, and as `CircularImport` where a file imports itself
    /// through others.
    fn load_files(
        &self,
        alloc: Global,
        files: &mut Vec<File<'src>>,
        numerator: &mut Numerator,
        key: &'src str,
        module: usize,
        first: usize,
    ) -> Result<(), Error<'src>>
        ensures numbers { OnOk result ((start : Numbers) → AreNumbered start files.old.items numerator.old → AreNumbered start files.new.items numerator.new) }
        ensures grown { OnOk result ((more : List LoadedFile) × (files.new.items ≡ files.old.items ++ more)) }
        ensures own_files { OnOk result (first ≤ length files.old.items → IsOwnAlone self.now.files.sources.now (E.expansion self.now.expander.now) self.now.config.now.version «module» key.now (drop first files.old.items) → AreFilesOf self.now.files.sources.now (E.expansion self.now.expander.now) self.now.config.now.version «module» key.now (drop first files.new.items)) }
        ensures refused { IfErr result (λ refusal. refusal ≢ refusals.OutOfMemory → first ≤ length files.old.items → IsOwnAlone self.now.files.sources.now (E.expansion self.now.expander.now) self.now.config.now.version «module» key.now (drop first files.old.items) → AreRefused self.now.files.sources.now (E.expansion self.now.expander.now) self.now.config.now.version «module» key.now first refusal) }
    {
        let mut reached = Reached::new(alloc);
        reached.begin(key)?;
        self.load_reached(alloc, files, numerator, &mut reached, module, first)?;
        reached.check(alloc, files.as_slice(), first)
    }

    /// Loads the file for the module, and all that it imports, in reading order.
    fn load_texts(
        &self,
        alloc: Global,
        files: &mut Vec<File<'src>>,
        numerator: &mut Numerator,
        source: Source<'src>,
        module: usize,
    ) -> Result<(), Error<'src>>
        ensures numbers { OnOk result ((start : Numbers) → AreNumbered start files.old.items numerator.old → AreNumbered start files.new.items numerator.new) }
        ensures grown { OnOk result ((more : List LoadedFile) × (files.new.items ≡ files.old.items ++ more)) }
        ensures own_files { OnOk result (IsSource self.now.files.sources.now (view source.entry) → AreFilesOf self.now.files.sources.now (E.expansion self.now.expander.now) self.now.config.now.version «module» source.entry.key.now (drop (length files.old.items) files.new.items)) }
        ensures refused { IfErr result (λ refusal. refusal ≢ refusals.OutOfMemory → IsSource self.now.files.sources.now (view source.entry) → IsModuleRefused self.now.files.sources.now (E.expansion self.now.expander.now) self.now.config.now.version «module» (view source.entry) (length files.old.items) refusal) }
    {
        let first = files.len();
        self.load_file(alloc, files, numerator, source, module, 0)?;
        self.load_files(alloc, files, numerator, source.key, module, first)
    }

    /// Loads the module's files, and puts it after the others and its submodules with those that are
    /// still to load.
    fn load_module(
        &self,
        alloc: Global,
        compilation: &mut Compilation<'src>,
        numerator: &mut Numerator,
        queue: &mut Queue<'src>,
        next: &Pending<'src>,
    ) -> Result<(), Error<'src>>
        ensures one_more { OnOk result (length compilation.new.modules.items ≡ length compilation.old.modules.items + 1) }
        ensures loaded { OnOk result ((start : Numbers) (is_read : Bool) (own : List ℕ) → AreLoadedSoFar self.now.files.sources.now (E.expansion self.now.expander.now) self.now.config.now.version self.now.config.now.os start is_read self.now.files own compilation.old numerator.old (queue.old.pending.items ++ next.now ∷ []) queue.old → AreLoadedSoFar self.now.files.sources.now (E.expansion self.now.expander.now) self.now.config.now.version self.now.config.now.os start is_read self.now.files own compilation.new numerator.new queue.new.pending.items queue.new) }
        ensures refused { IfErr result (λ refusal. refusal ≢ refusals.OutOfMemory → (start : Numbers) (is_read : Bool) (own : List ℕ) → AreLoadedSoFar self.now.files.sources.now (E.expansion self.now.expander.now) self.now.config.now.version self.now.config.now.os start is_read self.now.files own compilation.old numerator.old (queue.old.pending.items ++ next.now ∷ []) queue.old → IsLoadRefused self.now.files.sources.now (E.expansion self.now.expander.now) self.now.config.now.version self.now.files self.now.config.now.os compilation.old.modules.items next.now.parent (length compilation.old.files.items) (view next.now.source) refusal) }
    {
        let module = compilation.modules.len();
        let first = compilation.files.len();
        let files = &mut compilation.files;
        self.load_texts(alloc, files, numerator, next.source, module)?;
        let os = self.config.os;
        add_module(alloc, &self.files, os, compilation, queue, next, first)
    }

    /// Loads the next module that is still to load. False where there is none.
    fn load_next(
        &self,
        alloc: Global,
        compilation: &mut Compilation<'src>,
        numerator: &mut Numerator,
        queue: &mut Queue<'src>,
    ) -> Result<bool, Error<'src>>
        ensures one_more { IfOk result (λ loaded. loaded ≡ true → length compilation.old.modules.items < length compilation.new.modules.items) }
        ensures ended { IfOk result (λ loaded. loaded ≡ false → queue.new.pending.items ≡ []) }
        ensures loaded { OnOk result ((start : Numbers) (is_read : Bool) (own : List ℕ) → AreLoadedSoFar self.now.files.sources.now (E.expansion self.now.expander.now) self.now.config.now.version self.now.config.now.os start is_read self.now.files own compilation.old numerator.old queue.old.pending.items queue.old → AreLoadedSoFar self.now.files.sources.now (E.expansion self.now.expander.now) self.now.config.now.version self.now.config.now.os start is_read self.now.files own compilation.new numerator.new queue.new.pending.items queue.new) }
        ensures refused { IfErr result (λ refusal. refusal ≢ refusals.OutOfMemory → (start : Numbers) (is_read : Bool) (own : List ℕ) → AreLoadedSoFar self.now.files.sources.now (E.expansion self.now.expander.now) self.now.config.now.version self.now.config.now.os start is_read self.now.files own compilation.old numerator.old queue.old.pending.items queue.old → IsNextRefused self.now.files.sources.now (E.expansion self.now.expander.now) self.now.config.now.version self.now.config.now.os start is_read self.now.files own refusal) }
    {
        let Some(next) = queue.pop() else {
            return Ok(false);
        };
        self.load_module(alloc, compilation, numerator, queue, &next)?;
        Ok(true)
    }

    /// Loads all modules that are still to load.
    fn load_pending(
        &self,
        alloc: Global,
        compilation: &mut Compilation<'src>,
        numerator: &mut Numerator,
        queue: &mut Queue<'src>,
    ) -> Result<(), Error<'src>>
        ensures ended { OnOk result (queue.new.pending.items ≡ []) }
        ensures loaded { OnOk result ((start : Numbers) (is_read : Bool) (own : List ℕ) → AreLoadedSoFar self.now.files.sources.now (E.expansion self.now.expander.now) self.now.config.now.version self.now.config.now.os start is_read self.now.files own compilation.old numerator.old queue.old.pending.items queue.old → AreLoadedSoFar self.now.files.sources.now (E.expansion self.now.expander.now) self.now.config.now.version self.now.config.now.os start is_read self.now.files own compilation.new numerator.new queue.new.pending.items queue.new) }
        ensures refused { IfErr result (λ refusal. refusal ≢ refusals.OutOfMemory → (start : Numbers) (is_read : Bool) (own : List ℕ) → AreLoadedSoFar self.now.files.sources.now (E.expansion self.now.expander.now) self.now.config.now.version self.now.config.now.os start is_read self.now.files own compilation.old numerator.old queue.old.pending.items queue.old → IsNextRefused self.now.files.sources.now (E.expansion self.now.expander.now) self.now.config.now.version self.now.config.now.os start is_read self.now.files own refusal) }
    {
        while self.load_next(alloc, compilation, numerator, queue)? {}
        Ok(())
    }

    /// Loads all that the root file imports, and its module. The root file is the first file.
    fn load_own(
        &self,
        alloc: Global,
        compilation: &mut Compilation<'src>,
        numerator: &mut Numerator,
        queue: &mut Queue<'src>,
        root: &Pending<'src>,
    ) -> Result<(), Error<'src>>
        ensures loaded { OnOk result ((start : Numbers) (is_read : Bool) → root.now.parent ≡ None → root.now.item ≡ None → root.now.name ≡ None → queue.old.pending.items ≡ [] → queue.old.chain.items ≡ [] → IsChain queue.old → IsBegun self.now.files.sources.now (E.expansion self.now.expander.now) self.now.config.now.version self.now.config.now.os start is_read root.now.source.key.now compilation.old numerator.old → AreLoadedSoFar self.now.files.sources.now (E.expansion self.now.expander.now) self.now.config.now.version self.now.config.now.os start is_read self.now.files root.now.source.key.now compilation.new numerator.new queue.new.pending.items queue.new) }
        ensures refused { IfErr result (λ refusal. refusal ≢ refusals.OutOfMemory → (start : Numbers) (is_read : Bool) → root.now.parent ≡ None → queue.old.chain.items ≡ [] → IsChain queue.old → IsBegun self.now.files.sources.now (E.expansion self.now.expander.now) self.now.config.now.version self.now.config.now.os start is_read root.now.source.key.now compilation.old numerator.old → is_read ≡ true → (text : List ℕ) × IsSource self.now.files.sources.now (root.now.source.key.now, text) × IsLoadRefused self.now.files.sources.now (E.expansion self.now.expander.now) self.now.config.now.version self.now.files self.now.config.now.os [] None 0 (root.now.source.key.now, text) refusal) }
    {
        let files = &mut compilation.files;
        self.load_files(alloc, files, numerator, root.source.key, 0, 0)?;
        let os = self.config.os;
        add_module(alloc, &self.files, os, compilation, queue, root, 0)
    }

    /// Loads the module of the root file, which is the first file, and all modules below it.
    fn load_all(
        &self,
        alloc: Global,
        compilation: &mut Compilation<'src>,
        numerator: &mut Numerator,
        root: Source<'src>,
    ) -> Result<(), Error<'src>>
        ensures loaded { OnOk result ((start : Numbers) (is_read : Bool) → AreGrouped (source_keys self.now.files.sources.now) self.now.files.folders.now.justfiles → IsBegun self.now.files.sources.now (E.expansion self.now.expander.now) self.now.config.now.version self.now.config.now.os start is_read root.entry.key.now compilation.old numerator.old → AreLoaded self.now.files.sources.now (E.expansion self.now.expander.now) self.now.config.now.version self.now.config.now.os start is_read root.entry.key.now compilation.new) }
        ensures refused { IfErr result (λ refusal. refusal ≢ refusals.OutOfMemory → (start : Numbers) (is_read : Bool) → AreGrouped (source_keys self.now.files.sources.now) self.now.files.folders.now.justfiles → IsBegun self.now.files.sources.now (E.expansion self.now.expander.now) self.now.config.now.version self.now.config.now.os start is_read root.entry.key.now compilation.old numerator.old → IsBelowRefused self.now.files.sources.now (E.expansion self.now.expander.now) self.now.config.now.version self.now.config.now.os start is_read root.entry.key.now refusal) }
    {
        let mut queue = Queue::new(alloc);
        let own = Pending {
            source: root,
            parent: None,
            item: None,
            name: None,
        };
        self.load_own(alloc, compilation, numerator, &mut queue, &own)?;
        self.load_pending(alloc, compilation, numerator, &mut queue)
    }
}

/// Puts the module, whose files are those from the place `first` on, after the others, and its
/// submodules with those that are still to load.
fn add_module<'src>(
    alloc: Global,
    files: &Files<'src, '_>,
    os: Os,
    compilation: &mut Compilation<'src>,
    queue: &mut Queue<'src>,
    next: &Pending<'src>,
    first: usize,
) -> Result<(), Error<'src>>
    ensures one_more { OnOk result (length compilation.new.modules.items ≡ length compilation.old.modules.items + 1) }
    ensures node { OnOk result ((node : ModuleNode) × IsNodeOf next.now first (length compilation.old.files.items) node × IsNoted next.now.parent (length compilation.old.modules.items) (compilation.old.modules.items ++ node ∷ []) compilation.new.modules.items) }
    ensures files { OnOk result (compilation.new.files.items ≡ compilation.old.files.items) }
    ensures pending { OnOk result ((more : List Waiting) × AreWaiting files.now os compilation.old.files.items queue.new.keys (length compilation.old.modules.items) first (length compilation.old.files.items - first) more × (map waiting_view queue.new.pending.items ≡ map waiting_view queue.old.pending.items ++ more)) }
    ensures chain { OnOk result (queue.new.chain.items ≡ entered queue.old.chain.items next.now (length compilation.old.modules.items)) }
    ensures keys { OnOk result (IsChain queue.old → is_among (chain_keys (cut_to next.now.parent queue.old.chain.items)) next.now.source.key.now ≡ false → IsChain queue.new) }
    ensures refused { IfErr result (λ refusal. refusal ≢ refusals.OutOfMemory → (above : Above) × (IsChain queue.old → is_among (chain_keys (cut_to next.now.parent queue.old.chain.items)) next.now.source.key.now ≡ false → AreKeysOf above (entered queue.old.chain.items next.now (length compilation.old.modules.items))) × IsRefusedAmong files.now os compilation.old.files.items above (length compilation.old.modules.items) first (length compilation.old.files.items - first) refusal) }
{
    let module = compilation.modules.len();
    add_node(alloc, compilation, next, first)?;
    queue.enter(next, module)?;
    find_all(alloc, files, os, compilation, queue, first, module)
}

/// Loads all files that can be reached from the root file, which is the first file, given the files by
/// folder. Modules keep nothing yet.
fn load_found<'a, 'src, E: Expander>(
    alloc: Global,
    config: &'a Config,
    expander: &'a E,
    files: Files<'src, 'a>,
    compilation: &mut Compilation<'src>,
    numerator: &mut Numerator,
    root: Source<'src>,
) -> Result<(), Error<'src>>
    ensures loaded { OnOk result ((start : Numbers) (is_read : Bool) → AreGrouped (source_keys files.entry.sources.now) files.entry.folders.now.justfiles → IsBegun files.entry.sources.now (E.expansion expander.now) config.now.version config.now.os start is_read root.entry.key.now compilation.old numerator.old → AreLoaded files.entry.sources.now (E.expansion expander.now) config.now.version config.now.os start is_read root.entry.key.now compilation.new) }
    ensures refused { IfErr result (λ refusal. refusal ≢ refusals.OutOfMemory → (start : Numbers) (is_read : Bool) → AreGrouped (source_keys files.entry.sources.now) files.entry.folders.now.justfiles → IsBegun files.entry.sources.now (E.expansion expander.now) config.now.version config.now.os start is_read root.entry.key.now compilation.old numerator.old → IsBelowRefused files.entry.sources.now (E.expansion expander.now) config.now.version config.now.os start is_read root.entry.key.now refusal) }
{
    let loader = Loader {
        config,
        expander,
        files,
    };
    loader.load_all(alloc, compilation, numerator, root)
}

/// Loads all files that can be reached from the root file, which is the first file. Modules keep nothing
/// yet.
fn load_behind<'src, E: Expander>(
    alloc: Global,
    config: &Config,
    expander: &E,
    sources: &'src BTreeMap<String, String>,
    compilation: &mut Compilation<'src>,
    numerator: &mut Numerator,
    root: Source<'src>,
) -> Result<(), Error<'src>>
    ensures loaded { OnOk result ((start : Numbers) (is_read : Bool) → IsBegun sources.now (E.expansion expander.now) config.now.version config.now.os start is_read root.entry.key.now compilation.old numerator.old → AreLoaded sources.now (E.expansion expander.now) config.now.version config.now.os start is_read root.entry.key.now compilation.new) }
    ensures refused { IfErr result (λ refusal. refusal ≢ refusals.OutOfMemory → (start : Numbers) (is_read : Bool) → IsBegun sources.now (E.expansion expander.now) config.now.version config.now.os start is_read root.entry.key.now compilation.old numerator.old → IsBelowRefused sources.now (E.expansion expander.now) config.now.version config.now.os start is_read root.entry.key.now refusal) }
{
    let folders = Folders::new(alloc, sources)?;
    let files = Files {
        sources,
        folders: &folders,
    };
    load_found(alloc, config, expander, files, compilation, numerator, root)
}

/// The text at the key of the root file.
fn root_source<'src>(
    sources: &'src BTreeMap<String, String>,
    root: &'src str,
) -> Result<Source<'src>, Error<'src>>
    ensures found { IfOk result (λ source. (source.key.now ≡ root.now) × IsSource sources.now (view source)) }
    ensures clean { OnOk result (is_clean root.now ≡ true) }
    ensures missing { IfErr result (λ refusal. IsRootMissing sources.now root.now refusal) }
{
    if !is_clean(root) {
        return Err(Error::MissingRoot(root));
    }
    match file_at(sources, root) {
        Some(source) => Ok(source),
        None => Err(Error::MissingRoot(root)),
    }
}

/// Loads the root file, and all files that can be reached from it.
fn load_text<'src, E: Expander>(
    alloc: Global,
    config: &Config,
    expander: &E,
    sources: &'src BTreeMap<String, String>,
    compilation: &mut Compilation<'src>,
    root: &'src str,
) -> Result<(), Error<'src>>
    ensures loaded { OnOk result (compilation.old.files.items ≡ [] → compilation.old.modules.items ≡ [] → AreLoaded sources.now (E.expansion expander.now) config.now.version config.now.os first_numbers true root.now compilation.new) }
    ensures refused { IfErr result (λ refusal. refusal ≢ refusals.OutOfMemory → compilation.old.files.items ≡ [] → compilation.old.modules.items ≡ [] → IsRefused sources.now (E.expansion expander.now) config.now.version config.now.os first_numbers true root.now refusal) }
{
    let source = root_source(sources, root)?;
    let mut numerator = Numerator::new(CONSTANT_COUNT);
    let read = read_file(alloc, config, expander, &mut numerator, source, 0, 0);
    add_file(&mut compilation.files, read)?;
    load_behind(
        alloc,
        config,
        expander,
        sources,
        compilation,
        &mut numerator,
        source,
    )
}

/// Makes the tree the first file.
fn add_root<'src>(
    compilation: &mut Compilation<'src>,
    root: &'src str,
    ast: Ast<'src>,
) -> Result<(), AllocError>
    ensures files { OnOk result (compilation.new.files.items ≡ compilation.old.files.items ++ record { key = root.entry; «module» = 0; depth = 0; ast = ast.entry } ∷ []) }
    ensures modules { OnOk result (compilation.new.modules.items ≡ compilation.old.modules.items) }
{
    compilation.add_file(File {
        key: root,
        module: 0,
        depth: 0,
        ast,
    })
}

/// Makes the root file that has been read the first file, and loads all files that can be reached from
/// it.
fn load_parsed<'src, E: Expander>(
    alloc: Global,
    config: &Config,
    expander: &E,
    sources: &'src BTreeMap<String, String>,
    compilation: &mut Compilation<'src>,
    root: &'src str,
    parsed: Parsed<'src>,
) -> Result<(), Error<'src>>
    ensures loaded { OnOk result ((start : Numbers) (is_read : Bool) → compilation.old.files.items ≡ [] → compilation.old.modules.items ≡ [] → (is_read ≡ true → IsRootRead sources.now (E.expansion expander.now) config.now.version start root.now parsed.entry) → AreLoaded sources.now (E.expansion expander.now) config.now.version config.now.os start is_read root.now compilation.new) }
    ensures refused { IfErr result (λ refusal. refusal ≢ refusals.OutOfMemory → (start : Numbers) (is_read : Bool) → compilation.old.files.items ≡ [] → compilation.old.modules.items ≡ [] → (is_read ≡ true → IsRootRead sources.now (E.expansion expander.now) config.now.version start root.now parsed.entry) → IsRefused sources.now (E.expansion expander.now) config.now.version config.now.os start is_read root.now refusal) }
{
    let Parsed { ast, mut numerator } = parsed;
    add_root(compilation, root, ast)?;
    let source = root_source(sources, root)?;
    load_behind(
        alloc,
        config,
        expander,
        sources,
        compilation,
        &mut numerator,
        source,
    )
}

/// The file at the key `root` and all files that can be reached from it, each read anew for each module
/// that takes it, and their modules, which keep nothing yet. Numbers begin after those of the constants.
///
/// Refused as `MissingRoot` where the sources have no such key or it is no clean path, as the parser
/// refuses a text, as `MissingImport`, `MissingModule` and `AmbiguousModule` where no file or more than
/// one is meant, as `CircularImport` where a file is reached from itself, and where memory runs out.
pub fn load_root<'src, E: Expander>(
    alloc: Global,
    config: &Config,
    expander: &E,
    sources: &'src BTreeMap<String, String>,
    root: &'src str,
) -> Result<Compilation<'src>, Error<'src>>
    ensures loaded { IfOk result (AreLoaded sources.now (E.expansion expander.now) config.now.version config.now.os first_numbers true root.now) }
    ensures refused { IfErr result (λ refusal. refusal ≢ refusals.OutOfMemory → IsRefused sources.now (E.expansion expander.now) config.now.version config.now.os first_numbers true root.now refusal) }
{
    let mut compilation = Compilation::new(alloc);
    let outcome = load_text(alloc, config, expander, sources, &mut compilation, root);
    compilation.unless_refused(outcome)
}

/// The same for a root file that has been read. Numbers go on after its own.
pub fn load_modules<'src, E: Expander>(
    alloc: Global,
    config: &Config,
    expander: &E,
    sources: &'src BTreeMap<String, String>,
    root: &'src str,
    parsed: Parsed<'src>,
) -> Result<Compilation<'src>, Error<'src>>
    ensures loaded { IfOk result (λ compilation. (start : Numbers) (is_read : Bool) → (is_read ≡ true → IsRootRead sources.now (E.expansion expander.now) config.now.version start root.now parsed.entry) → AreLoaded sources.now (E.expansion expander.now) config.now.version config.now.os start is_read root.now compilation) }
    ensures refused { IfErr result (λ refusal. refusal ≢ refusals.OutOfMemory → (start : Numbers) (is_read : Bool) → (is_read ≡ true → IsRootRead sources.now (E.expansion expander.now) config.now.version start root.now parsed.entry) → IsRefused sources.now (E.expansion expander.now) config.now.version config.now.os start is_read root.now refusal) }
{
    let mut compilation = Compilation::new(alloc);
    let outcome = load_parsed(
        alloc,
        config,
        expander,
        sources,
        &mut compilation,
        root,
        parsed,
    );
    compilation.unless_refused(outcome)
}
