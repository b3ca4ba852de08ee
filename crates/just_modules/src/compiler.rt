//! From texts to modules.
ghost use Rattle.std.specs.Prelude.{[], ◌≡◌, ◌≢◌, ◌≤◌, ◌&&◌, ◌||◌, ℕ, Bool, true, List, IfErr, IfOk, OnOk, Ok, Err, Some, None, bytes_eq, length, slice_get};
ghost use Rattle.just_value.specs.Constants.{constant_rows};
ghost use Rattle.meaning_rules.specs.Worlds.Views.{given_of};
ghost use Rattle.laws_modules.specs.Names.Meant.{IsMeantWhole};
ghost use Rattle.meaning_rules.specs.Worlds.Matching.{MatchSources};
ghost use Rattle.modules_compilation.specs.declared.compilation.Compilation.{Compilation};
ghost use Rattle.modules_compilation.specs.declared.module_node.ModuleNode.{ModuleNode};
ghost use Rattle.modules_definitions.specs.Keeping.{AreInOrder, AreKept};
ghost use Rattle.modules_definitions.specs.Lists.{Gains, is_same_kind};
ghost use Rattle.modules_definitions.specs.declared.definition.Definition.{Definition};
ghost use Rattle.modules_definitions.specs.declared.definition.Kind.TheVariants as kinds;
ghost use Rattle.just_text.specs.Numbers.{Numbers};
ghost use Rattle.modules_sources.specs.Loaded.{IsRootRead, first_numbers};
ghost use Rattle.resolve_recipes.specs.Named.{AllByName};
ghost use Rattle.modules_compilation.specs.declared.compilation.Target.TheVariants as targets;
ghost use Rattle.modules_compilation.specs.declared.error.Error.TheVariants as refusals;
ghost use Rattle.resolve_recipes.specs.Leading.{target_in};
ghost use Rattle.just_modules.specs.Aliases.{AllAliasesLead, AllLead, IsAliasUnknown, IsUnknownAmong, IsUnknownAt, Leads, LeadsAt};
ghost use Rattle.just_modules.specs.Exports as spec;
ghost use Rattle.just_modules.specs.Worlds.{BreaksNone, BreaksTold, HasWorld, InEachWorld, IsCompilationOf};
ghost use Rattle.just_modules.specs.Refused.{IsUnsettled, IsRefused as IsCompileRefused};
ghost use Rattle.just_modules.specs.Keeping.{files_of, AreClear, AreFilled, AreKeptOf, AreRefused, AreRefusedIn, AreWhole, IsChangedAt, IsFilled, IsFirstRefused, IsRefused, IsSettled, Keeps, OrMemory};

use crate::rules::check_files;
use crate::truths::Truths;
use just_host::Config;
use justfile_syntax::file_law::file_law;
use justfile_syntax::{Alias, Expander, Item, Namepath};
use modules_compilation::{Compilation, Error, File, ModuleNode, Place, Target};
use modules_definitions::{Allowed, Definition, FileRange, Kind, definitions, kept, put_all};
use modules_sources::{Parsed, load_modules, load_root};
use resolve_recipes::target;
use std::alloc::{AllocError, Global};
use std::collections::{BTreeMap, BTreeSet};

/// Makes modules of texts.
pub struct Compiler;

/// Whether a definition of the kind says that its name is not to be exported.
fn is_unexport(kind: Kind) -> bool
    ensures { result ≡ is_same_kind kinds.Unexport kind }
{
    matches!(kind, Kind::Unexport)
}

/// Puts the name with the others where the definition says that it is not to be exported.
fn note_unexport<'src>(
    names: &mut BTreeSet<&'src str>,
    definition: &Definition<'src, '_>,
) -> Result<(), AllocError>
    ensures { OnOk result ((text : List ℕ) → spec.has_text names.new text ≡ (spec.has_text names.old text || (is_same_kind kinds.Unexport definition.now.kind && bytes_eq definition.now.text.now text))) }
{
    if !is_unexport(definition.kind) {
        return Ok(());
    }
    names.insert(definition.text)?;
    Ok(())
}

/// The names that are not to be exported.
fn unexported<'src>(
    alloc: Global,
    definitions: &[Definition<'src, '_>],
) -> Result<BTreeSet<&'src str>, AllocError>
    ensures { IfOk result (λ names. (text : List ℕ) → spec.has_text names text ≡ spec.is_unexported definitions.now text) }
{
    let mut names = BTreeSet::new(alloc);
    for definition in definitions {
        note_unexport(&mut names, definition)?;
    }
    Ok(names)
}

/// Whether the item is a variable that is exported by a word of its own.
fn is_exported(item: &Item<'_>) -> bool
    ensures { result ≡ spec.is_exported (Some item.now) }
{
    match item {
        Item::Assignment(assignment) => assignment.export,
        _ => false,
    }
}

/// Whether the item at the place is a variable that is exported by a word of its own.
fn exports_at(files: &[File<'_>], place: Place) -> bool
    ensures { result ≡ spec.exports_at files.now place }
{
    if place.file >= files.len() {
        return false;
    }
    match files[place.file].item(place.item) {
        Some(item) => is_exported(item),
        None => false,
    }
}

/// Whether a definition of the kind is a variable's.
fn is_variable(kind: Kind) -> bool
    ensures { result ≡ is_same_kind kinds.Variable kind }
{
    matches!(kind, Kind::Variable)
}

/// Whether this defines a variable that is exported by a word of its own.
fn exports(files: &[File<'_>], definition: &Definition<'_, '_>) -> bool
    ensures { result ≡ spec.exports files.now definition.now }
{
    is_variable(definition.kind) && exports_at(files, definition.place)
}

/// Whether this defines a variable that is exported, and whose name is one of those that are not to
/// be.
fn is_refused(
    files: &[File<'_>],
    unexported: &BTreeSet<&str>,
    definition: &Definition<'_, '_>,
) -> bool
    ensures { result ≡ (spec.exports files.now definition.now && spec.has_text unexported.now definition.now.text.now) }
{
    exports(files, definition) && unexported.contains(definition.text)
}

/// Refuses the first variable that is exported and whose name is not to be.
fn check_exports<'src>(
    alloc: Global,
    files: &[File<'src>],
    definitions: &[Definition<'src, '_>],
) -> Result<(), Error<'src>>
    ensures clear { OnOk result (spec.first_unexported files.now definitions.now ≡ None) }
    ensures broken { IfErr result (OrMemory (λ e. (d : Definition) × (spec.first_unexported files.now definitions.now ≡ Some d) × (e ≡ spec.export_refusal d))) }
{
    let unexported = unexported(alloc, definitions)?;
    for definition in definitions {
        if is_refused(files, &unexported, definition) {
            return Err(Error::ExportUnexported(*definition.name));
        }
    }
    Ok(())
}

/// The files of the range.
fn files_of<'file, 'src>(files: &'file [File<'src>], range: FileRange) -> &'file [File<'src>]
    ensures { result.now ≡ files_of files.now range }
{
    let end = range.end.min(files.len());
    &files[range.first.min(end)..end]
}

/// What is kept of the definitions, where they break no rule.
fn kept_among<'src, 'a>(
    alloc: Global,
    files: &[File<'src>],
    definitions: &[Definition<'src, 'a>],
    allowed: Allowed,
) -> Result<Vec<Definition<'src, 'a>>, Error<'src>>
    requires { AreInOrder definitions.now }
    ensures clear { OnOk result (AreClear files.now allowed definitions.now) }
    ensures kept { IfOk result (λ kept. AreKept definitions.now kept.items) }
    ensures refused { IfErr result (OrMemory (AreRefused files.now allowed definitions.now)) }
{
    match check_exports(alloc, files, definitions) {
        Ok(()) => kept(alloc, definitions, allowed),
        Err(refusal) => Err(refusal),
    }
}

/// What the module keeps of its definitions, where they and its files, which are those of the range,
/// break no rule.
fn kept_of<'src, 'a>(
    alloc: Global,
    files: &[File<'src>],
    range: FileRange,
    definitions: &[Definition<'src, 'a>],
    config: &Config,
) -> Result<Vec<Definition<'src, 'a>>, Error<'src>>
    requires { AreInOrder definitions.now }
    ensures kept { IfOk result (λ kept. AreKeptOf config.now.os config.now.unstable files.now range definitions.now kept.items) }
    ensures refused { IfErr result (OrMemory (AreRefusedIn config.now.os config.now.unstable files.now range definitions.now)) }
{
    let own = files_of(files, range);
    let truths = Truths::new(own, config.os, config.unstable);
    match check_files(own, &truths, config.os) {
        Ok(()) => kept_among(alloc, files, definitions, truths.allowed()),
        Err(refusal) => Err(refusal),
    }
}

/// What the module keeps.
fn kept_in<'src, 'a>(
    alloc: Global,
    files: &'a [File<'src>],
    modules: &[ModuleNode<'src>],
    node: &ModuleNode<'src>,
    config: &Config,
) -> Result<Vec<Definition<'src, 'a>>, Error<'src>>
    ensures kept { IfOk result (λ kept. Keeps config.now.os config.now.unstable files.now modules.now node.now kept.items) }
    ensures refused { IfErr result (OrMemory (IsRefused config.now.os config.now.unstable files.now modules.now node.now)) }
{
    let range = FileRange {
        first: node.first_file,
        end: node.end_file,
    };
    let submodules = node.submodules.as_slice();
    let definitions = definitions(alloc, files, range, modules, submodules, config.os)?;
    kept_of(alloc, files, range, definitions.as_slice(), config)
}

/// What the module at the place keeps; nothing where there is no module.
fn kept_at<'src, 'a>(
    alloc: Global,
    files: &'a [File<'src>],
    modules: &[ModuleNode<'src>],
    place: usize,
    config: &Config,
) -> Result<Vec<Definition<'src, 'a>>, Error<'src>>
    ensures kept { IfOk result (λ kept. (node : ModuleNode) → slice_get modules.now place ≡ Some node → Keeps config.now.os config.now.unstable files.now modules.now node kept.items) }
    ensures none { IfOk result (λ kept. slice_get modules.now place ≡ None → kept.items ≡ []) }
    ensures refused { IfErr result (OrMemory (λ e. (node : ModuleNode) × (slice_get modules.now place ≡ Some node) × IsRefused config.now.os config.now.unstable files.now modules.now node e)) }
{
    if place >= modules.len() {
        return Ok(Vec::new(alloc));
    }
    kept_in(alloc, files, modules, &modules[place], config)
}

/// Puts the definitions that are kept into the lists of the module at the place.
fn fill<'src>(
    modules: &mut Vec<ModuleNode<'src>>,
    place: usize,
    kept: &[Definition<'src, '_>],
) -> Result<(), AllocError>
    ensures { OnOk result (IsChangedAt place (λ before after. Gains [] before after kept.now) modules.old.items modules.new.items) }
{
    match modules.get_mut(place) {
        Some(node) => put_all(node, kept),
        None => Ok(()),
    }
}

/// Fills the lists of the module at the place.
fn keep<'src>(
    alloc: Global,
    compilation: &mut Compilation<'src>,
    place: usize,
    config: &Config,
) -> Result<(), Error<'src>>
    ensures files { OnOk result (compilation.new.files.items ≡ compilation.old.files.items) }
    ensures filled { OnOk result (IsChangedAt place (IsFilled config.now.os config.now.unstable compilation.old.files.items compilation.old.modules.items) compilation.old.modules.items compilation.new.modules.items) }
    ensures refused { IfErr result (OrMemory (λ e. (node : ModuleNode) × (slice_get compilation.old.modules.items place ≡ Some node) × IsRefused config.now.os config.now.unstable compilation.old.files.items compilation.old.modules.items node e)) }
{
    let files = compilation.files.as_slice();
    match kept_at(alloc, files, compilation.modules.as_slice(), place, config) {
        Ok(kept) => {
            fill(&mut compilation.modules, place, kept.as_slice())?;
            Ok(())
        }
        Err(refusal) => Err(refusal),
    }
}

/// Fills the lists of all modules.
fn keep_all<'src>(
    alloc: Global,
    compilation: &mut Compilation<'src>,
    config: &Config,
) -> Result<(), Error<'src>>
    ensures filled { OnOk result (AreFilled config.now.os config.now.unstable compilation.old compilation.new) }
    ensures refused { IfErr result (OrMemory (IsFirstRefused config.now.os config.now.unstable compilation.old)) }
{
    for place in 0..compilation.modules.len() {
        match keep(alloc, compilation, place, config) {
            Ok(()) => {}
            Err(refusal) => return Err(refusal),
        }
    }
    Ok(())
}

/// The refusal of an alias that stands for nothing.
fn unknown_target<'src>(alias: &Alias<'src, Namepath<'src>>) -> Result<Error<'src>, AllocError>
    ensures { IfOk result (λ error. error ≡ refusals.UnknownAliasTarget alias.now.name alias.now.target) }
{
    Ok(Error::UnknownAliasTarget {
        alias: alias.name,
        target: alias.target.clone()?,
    })
}

/// Refuses the alias where it stands for nothing that is seen from the module.
fn check_alias<'src>(
    compilation: &Compilation<'src>,
    module: usize,
    alias: &Alias<'src, Namepath<'src>>,
) -> Result<(), Error<'src>>
    ensures clear { OnOk result (AllByName compilation.now → Leads compilation.now «module» alias.now) }
    ensures refused { IfErr result (OrMemory (λ error. AllByName compilation.now → (target_in compilation.now «module» alias.now.target ≡ targets.Nothing) × (error ≡ refusals.UnknownAliasTarget alias.now.name alias.now.target))) }
{
    match target(compilation, module, alias.target.names()) {
        Target::Nothing => Err(unknown_target(alias)?),
        Target::Recipe { .. } | Target::Module(_) => Ok(()),
    }
}

/// Refuses the alias at the place, if one stands there, where it stands for nothing that is seen from
/// the module.
fn check_place<'src>(
    compilation: &Compilation<'src>,
    module: usize,
    place: Place,
) -> Result<(), Error<'src>>
    ensures clear { OnOk result (AllByName compilation.now → LeadsAt compilation.now «module» place) }
    ensures refused { IfErr result (OrMemory (λ error. AllByName compilation.now → IsUnknownAt compilation.now «module» place error)) }
{
    match compilation.alias(place) {
        Some(alias) => check_alias(compilation, module, alias),
        None => Ok(()),
    }
}

/// Refuses the first alias of a module that stands for nothing.
fn check_aliases<'src>(
    compilation: &Compilation<'src>,
    module: usize,
    aliases: &[Place],
) -> Result<(), Error<'src>>
    ensures clear { OnOk result (AllByName compilation.now → AllLead compilation.now «module» aliases.now) }
    ensures refused { IfErr result (OrMemory (λ error. AllByName compilation.now → IsUnknownAmong compilation.now «module» aliases.now error)) }
{
    for place in aliases {
        match check_place(compilation, module, *place) {
            Ok(()) => {}
            Err(refusal) => return Err(refusal),
        }
    }
    Ok(())
}

/// Refuses the first alias that stands for nothing.
fn check_all_aliases<'src>(compilation: &Compilation<'src>) -> Result<(), Error<'src>>
    ensures clear { OnOk result (AllByName compilation.now → AllAliasesLead compilation.now) }
    ensures refused { IfErr result (OrMemory (λ error. AllByName compilation.now → IsAliasUnknown compilation.now error)) }
{
    let modules = compilation.modules.as_slice();
    for module in 0..modules.len() {
        match check_aliases(compilation, module, modules[module].aliases.as_slice()) {
            Ok(()) => {}
            Err(refusal) => return Err(refusal),
        }
    }
    Ok(())
}

/// Fills the lists of all modules, and looks at what aliases stand for.
fn settle<'src>(
    alloc: Global,
    compilation: &mut Compilation<'src>,
    config: &Config,
) -> Result<(), Error<'src>>
    ensures filled { OnOk result (AreFilled config.now.os config.now.unstable compilation.old compilation.new) }
    ensures aliases { OnOk result (AllByName compilation.new → AllAliasesLead compilation.new) }
    ensures refused { IfErr result (OrMemory (IsUnsettled config.now.os config.now.unstable compilation.old)) }
{
    match keep_all(alloc, compilation, config) {
        Ok(()) => check_all_aliases(compilation),
        Err(refusal) => Err(refusal),
    }
}

/// The modules with their lists, where they were loaded and break no rule.
fn settled<'src>(
    alloc: Global,
    config: &Config,
    loaded: Result<Compilation<'src>, Error<'src>>,
) -> Result<Compilation<'src>, Error<'src>>
    ensures filled { IfOk result (λ compilation. (before : Compilation) × (loaded.entry ≡ Ok before) × AreFilled config.now.os config.now.unstable before compilation) }
    ensures aliases { IfOk result (λ compilation. AllByName compilation → AllAliasesLead compilation) }
    ensures unsettled { IfErr result (λ error. (before : Compilation) → loaded.entry ≡ Ok before → OrMemory (IsUnsettled config.now.os config.now.unstable before) error) }
    ensures refused { IfErr loaded.entry (λ error. result ≡ Err error) }
{
    match loaded {
        Ok(mut compilation) => {
            let outcome = settle(alloc, &mut compilation, config);
            compilation.unless_refused(outcome)
        }
        Err(error) => Err(error),
    }
}

impl Compiler {
    /// The modules of the justfile at the key `root` of the sources: the files that are reached from
    /// it, each read anew for each module that takes it, and what the modules keep. Numbers begin
    /// after those of the constants, and no two bindings or recipes have one.
    ///
    /// Refused as `MissingRoot` where the sources have no such key or it is no clean path, and as
    /// the variants of `Error` say; of several refusals that hold one is answered.
    pub fn compile<'src, E: Expander>(
        alloc: Global,
        config: &Config,
        expander: &E,
        sources: &'src BTreeMap<String, String>,
        root: &'src str,
    ) -> Result<Compilation<'src>, Error<'src>>
        ensures filled { IfOk result (IsSettled config.now.os config.now.unstable sources.now (E.expansion expander.now) config.now.version first_numbers true root.now) }
        ensures made { IfOk result (λ compilation. InEachWorld config.now.os config.now.unstable sources.now (E.expansion expander.now) config.now.version root.now (IsCompilationOf compilation)) }
        ensures meant { IfOk result (λ compilation. InEachWorld config.now.os config.now.unstable sources.now (E.expansion expander.now) config.now.version root.now (λ w. IsMeantWhole w compilation)) }
        ensures there { OnOk result (HasWorld config.now.os config.now.unstable sources.now (E.expansion expander.now) config.now.version root.now) }
        ensures clear { OnOk result (InEachWorld config.now.os config.now.unstable sources.now (E.expansion expander.now) config.now.version root.now BreaksNone) }
        ensures broken { IfErr result (λ error. InEachWorld config.now.os config.now.unstable sources.now (E.expansion expander.now) config.now.version root.now (BreaksTold error)) }
        ensures by_name { IfOk result AllByName }
        ensures aliases { IfOk result AllAliasesLead }
        ensures whole { IfOk result (AreWhole config.now.os config.now.unstable) }
        ensures refused { IfErr result (λ error. error ≢ refusals.OutOfMemory → IsCompileRefused config.now.os config.now.unstable sources.now (E.expansion expander.now) config.now.version first_numbers true root.now error) }
    {
        file_law();
        let loaded = load_root(alloc, config, expander, sources, root);
        settled(alloc, config, loaded)
    }

    /// The same for a root file that has been read. Numbers go on after its own.
    pub fn compile_parsed<'src, E: Expander>(
        alloc: Global,
        config: &Config,
        expander: &E,
        sources: &'src BTreeMap<String, String>,
        root: &'src str,
        parsed: Parsed<'src>,
    ) -> Result<Compilation<'src>, Error<'src>>
        ensures filled { IfOk result (λ compilation. (start : Numbers) (is_read : Bool) → (is_read ≡ true → IsRootRead sources.now (E.expansion expander.now) config.now.version start root.now parsed.entry) → IsSettled config.now.os config.now.unstable sources.now (E.expansion expander.now) config.now.version start is_read root.now compilation) }
        ensures made { IfOk result (λ compilation. (start : Numbers) → IsRootRead sources.now (E.expansion expander.now) config.now.version start root.now parsed.entry → InEachWorld config.now.os config.now.unstable sources.now (E.expansion expander.now) config.now.version root.now (IsCompilationOf compilation)) }
        ensures meant { IfOk result (λ compilation. (start : Numbers) → length constant_rows ≤ start.bindings → IsRootRead sources.now (E.expansion expander.now) config.now.version start root.now parsed.entry → InEachWorld config.now.os config.now.unstable sources.now (E.expansion expander.now) config.now.version root.now (λ w. IsMeantWhole w compilation)) }
        ensures told { IfOk result (λ compilation. (start : Numbers) → IsRootRead sources.now (E.expansion expander.now) config.now.version start root.now parsed.entry → MatchSources (given_of sources.now config.now.os config.now.unstable (E.expansion expander.now) config.now.version root.now) compilation) }
        ensures there { OnOk result ((start : Numbers) → IsRootRead sources.now (E.expansion expander.now) config.now.version start root.now parsed.entry → HasWorld config.now.os config.now.unstable sources.now (E.expansion expander.now) config.now.version root.now) }
        ensures clear { OnOk result ((start : Numbers) → IsRootRead sources.now (E.expansion expander.now) config.now.version start root.now parsed.entry → InEachWorld config.now.os config.now.unstable sources.now (E.expansion expander.now) config.now.version root.now BreaksNone) }
        ensures broken { IfErr result (λ error. (start : Numbers) → IsRootRead sources.now (E.expansion expander.now) config.now.version start root.now parsed.entry → InEachWorld config.now.os config.now.unstable sources.now (E.expansion expander.now) config.now.version root.now (BreaksTold error)) }
        ensures by_name { IfOk result AllByName }
        ensures aliases { IfOk result AllAliasesLead }
        ensures whole { IfOk result (AreWhole config.now.os config.now.unstable) }
        ensures refused { IfErr result (λ error. error ≢ refusals.OutOfMemory → (start : Numbers) (is_read : Bool) → (is_read ≡ true → IsRootRead sources.now (E.expansion expander.now) config.now.version start root.now parsed.entry) → IsCompileRefused config.now.os config.now.unstable sources.now (E.expansion expander.now) config.now.version start is_read root.now error) }
    {
        file_law();
        let loaded = load_modules(alloc, config, expander, sources, root, parsed);
        settled(alloc, config, loaded)
    }
}
