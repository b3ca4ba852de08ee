//! What is known before anything is evaluated: the texts that words give, settings and folders.
ghost use Rattle.std.specs.Prelude.{◌≡◌, ◌≢◌, IfErr, IfOk, map};
ghost use Rattle.just_resolve.specs.Settling as spec;
ghost use Rattle.just_resolve.specs.Settling.{AllSettled, AreConstantly, AreKnown, AreMany, AreUnknown, NotSettled};
ghost use Rattle.just_resolve.specs.declared.error.Error.TheVariants.{OutOfMemory};

use crate::error::Error;
use crate::settled::settled;
use evaluate_context::Settings;
use evaluate_functions::paths;
use just_text::{Number, Text};
use just_value::{Scope, path};
use modules_compilation::{Compilation, ModuleNode};
use resolve_analysis::{KnownValues, ModuleLists, ModuleReads};
use std::alloc::{AllocError, Global};
use std::collections::BTreeMap;

/// The folder of the file with this key: the parent of its path below the base.
fn folder_of(alloc: Global, base: &str, key: &str) -> Result<Text, AllocError>
    ensures { IfOk result (λ folder. folder ≡ spec.folder_of base.now key.now) }
{
    let file = path::join(alloc, base, key)?;
    match paths::parent(file.as_str()) {
        Some(folder) => Text::from_text(alloc, folder),
        None => Text::from_text(alloc, ""),
    }
}

/// The folder of each module's file.
fn folders(alloc: Global, modules: &[ModuleNode], base: &str) -> Result<Vec<Text>, AllocError>
    ensures { IfOk result (λ folders. folders.items ≡ map (λ node. spec.folder_of base.now node.source.now) modules.now) }
{
    let mut folders = Vec::new(alloc);
    for node in modules {
        folders.push(folder_of(alloc, base, node.source)?)?;
    }
    Ok(folders)
}

/// The values of each module's settings, where these are the constants.
fn all_settled<'src>(
    alloc: Global,
    compilation: &Compilation<'src>,
    lists: &[ModuleLists<'src, '_>],
    reads: &[ModuleReads<'src>],
    orders: &[Vec<usize>],
    overrides: &BTreeMap<Number, String>,
    constants: &Scope<'_, 'src>,
) -> Result<Vec<Settings>, Error<'src>>
    ensures settled { IfOk result (λ all. AreMany compilation.now lists.now reads.now orders.now overrides.now → AllSettled compilation.now lists.now reads.now orders.now overrides.now constants.now all.items) }
    ensures refused { IfErr result (λ error. error ≢ OutOfMemory → NotSettled compilation.now lists.now reads.now orders.now overrides.now constants.now error) }
{
    let modules = compilation.modules.as_slice();
    let mut all = Vec::new(alloc);
    for module in 0..modules.len() {
        let Some(lists) = lists.get(module) else {
            return Ok(all);
        };
        let Some(reads) = reads.get(module) else {
            return Ok(all);
        };
        let Some(order) = orders.get(module) else {
            return Ok(all);
        };
        let sets = modules[module].sets.as_slice();
        let order = order.as_slice();
        all.push(settled(
            alloc,
            compilation,
            sets,
            lists,
            reads,
            order,
            overrides,
            constants,
        )?)?;
    }
    Ok(all)
}

/// The values of each module's settings.
fn all_settings<'src>(
    alloc: Global,
    compilation: &Compilation<'src>,
    lists: &[ModuleLists<'src, '_>],
    reads: &[ModuleReads<'src>],
    orders: &[Vec<usize>],
    overrides: &BTreeMap<Number, String>,
) -> Result<Vec<Settings>, Error<'src>>
    ensures settled { IfOk result (λ all. AreMany compilation.now lists.now reads.now orders.now overrides.now → AreConstantly compilation.now lists.now reads.now orders.now overrides.now all.items) }
    ensures refused { IfErr result (λ error. error ≢ OutOfMemory → AreUnknown compilation.now lists.now reads.now orders.now overrides.now error) }
{
    let constants = Scope::root(alloc)?;
    all_settled(
        alloc,
        compilation,
        lists,
        reads,
        orders,
        overrides,
        &constants,
    )
}

/// The values of the modules' settings and their files' folders, beside the texts that words give for
/// variables. Keys of files are taken from this folder. Refused where a setting is no constant or has
/// no value, and where memory runs out.
pub fn known_values<'src>(
    alloc: Global,
    compilation: &Compilation<'src>,
    base: &str,
    lists: &[ModuleLists<'src, '_>],
    reads: &[ModuleReads<'src>],
    orders: &[Vec<usize>],
    overrides: BTreeMap<Number, String>,
) -> Result<Box<KnownValues>, Error<'src>>
    ensures known { IfOk result (λ known. AreMany compilation.now lists.now reads.now orders.now overrides → AreKnown compilation.now lists.now reads.now orders.now overrides base.now known.value) }
    ensures given { IfOk result (λ known. known.value.overrides ≡ overrides) }
    ensures refused { IfErr result (λ error. error ≢ OutOfMemory → AreUnknown compilation.now lists.now reads.now orders.now overrides error) }
{
    let settings = all_settings(alloc, compilation, lists, reads, orders, &overrides)?;
    let folders = folders(alloc, compilation.modules.as_slice(), base)?;
    let known = KnownValues {
        overrides,
        settings,
        folders,
    };
    Ok(Box::new(alloc, known)?)
}
