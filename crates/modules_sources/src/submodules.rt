//! The submodules of files.
ghost use Rattle.std.specs.Prelude.{◌≡◌, ◌≢◌, ◌+◌, ◌-◌, ◌++◌, ◌∷◌, [], List, Option, IfErr, IfOk, OnOk, Ok, Err, length, map, option_map, slice_get, true, false};
ghost use Rattle.modules_compilation.specs.Places.{items_in};
ghost use Rattle.modules_compilation.specs.declared.error.Error.TheVariants as refusals;
ghost use Rattle.modules_files.specs.Chosen.{File as SourceFile};
ghost use Rattle.modules_files.specs.Found.{has_text};
ghost use Rattle.modules_sources.specs.Items as spec;
ghost use Rattle.modules_sources.specs.Items.{key_of};
ghost use Rattle.modules_sources.specs.Submodules.{AreBelow, AreFound, AreWaiting, Found, Gives, IsBack, IsCircular, IsRefused, IsRefusedAmong, IsRefusedAt, NoneAbove, Waiting, found_at, found_view, waiting, waiting_view};

use crate::imports::key_at;
use crate::items::{items_of, module_of};
use crate::queue::{Pending, Queue};
use just_text::{Name, Os};
use modules_compilation::{Compilation, Error, File, Place, Source};
use modules_files::{Files, of_module};
use std::alloc::Global;
use tree_items::Item;

/// A submodule that a file has, and its file.
#[derive(Clone, Copy)]
struct Submodule<'src> {
    source: Source<'src>,
    item: usize,
    name: Name<'src>,
}

/// Puts the submodule that the item at the place is after what was found; nothing where it is none, is
/// disabled, or its file is missing and may be.
fn add_submodule<'src>(
    alloc: Global,
    files: &Files<'src, '_>,
    os: Os,
    key: &str,
    item: &Item<'src>,
    place: usize,
    found: &mut Vec<Submodule<'src>>,
) -> Result<(), Error<'src>>
    ensures found { OnOk result ((source : Option SourceFile) × Gives files.now os key.now (spec.module_of os item.now) (Ok source) × (map found_view found.new.items ≡ map found_view found.old.items ++ found_at place (spec.module_of os item.now) source)) }
    ensures refused { IfErr result (λ refusal. refusal ≢ refusals.OutOfMemory → Gives files.now os key.now (spec.module_of os item.now) (Err refusal)) }
{
    let Some(module) = module_of(item, os) else {
        return Ok(());
    };
    let Some(source) = of_module(alloc, files, key, &module)? else {
        return Ok(());
    };
    found.push(Submodule {
        source,
        item: place,
        name: module.name,
    })?;
    Ok(())
}

/// The submodules among the items of the file with this key, in their order.
fn submodules_among<'src>(
    alloc: Global,
    files: &Files<'src, '_>,
    os: Os,
    key: &str,
    items: &[Item<'src>],
) -> Result<Vec<Submodule<'src>>, Error<'src>>
    ensures found { IfOk result (λ found. AreFound files.now os key.now items.now (map found_view found.items)) }
    ensures refused { IfErr result (λ refusal. refusal ≢ refusals.OutOfMemory → IsRefused files.now os key.now items.now refusal) }
{
    let mut found = Vec::new(alloc);
    for place in 0..items.len() {
        add_submodule(alloc, files, os, key, &items[place], place, &mut found)?;
    }
    Ok(found)
}

/// The submodules of the file at the place, in their order; none where there is no file.
fn submodules_at<'src>(
    alloc: Global,
    files: &Files<'src, '_>,
    os: Os,
    all: &[File<'src>],
    place: usize,
) -> Result<Vec<Submodule<'src>>, Error<'src>>
    ensures found { IfOk result (λ found. AreFound files.now os (key_of (slice_get all.now place)) (items_in all.now place) (map found_view found.items)) }
    ensures refused { IfErr result (λ refusal. refusal ≢ refusals.OutOfMemory → IsRefused files.now os (key_of (slice_get all.now place)) (items_in all.now place) refusal) }
{
    if place >= all.len() {
        return Ok(Vec::new(alloc));
    }
    submodules_among(alloc, files, os, all[place].key, items_of(&all[place]))
}

/// Puts the submodule of the file at the place, which is one of the module, with those that are still to
/// load. The module was loaded last.
///
/// Refused as `CircularImport` where its file is that of the module or of one above it.
fn add_pending<'src>(
    all: &[File<'src>],
    queue: &mut Queue<'src>,
    submodule: Submodule<'src>,
    file: usize,
    module: usize,
) -> Result<(), Error<'src>>
    ensures pending { OnOk result (map waiting_view queue.new.pending.items ≡ map waiting_view queue.old.pending.items ++ waiting file «module» (found_view submodule.entry) ∷ []) }
    ensures below { OnOk result (has_text queue.old.keys submodule.entry.source.key.now ≡ false) }
    ensures refused { IfErr result (λ refusal. refusal ≢ refusals.OutOfMemory → (has_text queue.old.keys submodule.entry.source.key.now ≡ true) × IsCircular refusal (key_of (slice_get all.now file)) submodule.entry.source.key.now) }
    ensures chain { queue.new.chain ≡ queue.old.chain }
    ensures keys { queue.new.keys ≡ queue.old.keys }
{
    if queue.is_above(submodule.source.key) {
        return Err(Error::CircularImport {
            current: key_at(all, file),
            import: submodule.source.key,
        });
    }
    queue.push(Pending {
        source: submodule.source,
        parent: Some(module),
        item: Some(Place {
            file,
            item: submodule.item,
        }),
        name: Some(submodule.name),
    })?;
    Ok(())
}

/// Puts the submodules of the file at the place, which is one of the module, with those that are still to
/// load. The module was loaded last.
///
/// Refused as `CircularImport` where the file of one is that of the module or of one above it.
fn add_all<'src>(
    all: &[File<'src>],
    queue: &mut Queue<'src>,
    found: &[Submodule<'src>],
    file: usize,
    module: usize,
) -> Result<(), Error<'src>>
    ensures pending { OnOk result (map waiting_view queue.new.pending.items ≡ map waiting_view queue.old.pending.items ++ map (waiting file «module») (map found_view found.now)) }
    ensures below { OnOk result (NoneAbove queue.old.keys (map found_view found.now)) }
    ensures refused { IfErr result (λ refusal. refusal ≢ refusals.OutOfMemory → IsBack queue.old.keys (key_of (slice_get all.now file)) (map found_view found.now) refusal) }
    ensures chain { queue.new.chain ≡ queue.old.chain }
    ensures keys { queue.new.keys ≡ queue.old.keys }
{
    for submodule in found {
        add_pending(all, queue, *submodule, file, module)?;
    }
    Ok(())
}

/// Puts the submodules of the file at the place, which is one of the module, with those that are still to
/// load. The module was loaded last.
fn find_submodules<'src>(
    alloc: Global,
    files: &Files<'src, '_>,
    os: Os,
    compilation: &Compilation<'src>,
    queue: &mut Queue<'src>,
    place: usize,
    module: usize,
) -> Result<(), Error<'src>>
    ensures pending { OnOk result ((found : List Found) × AreBelow files.now os compilation.now.files.items queue.old.keys place found × (map waiting_view queue.new.pending.items ≡ map waiting_view queue.old.pending.items ++ map (waiting place «module») found)) }
    ensures refused { IfErr result (λ refusal. refusal ≢ refusals.OutOfMemory → IsRefusedAt files.now os compilation.now.files.items queue.old.keys place refusal) }
    ensures chain { queue.new.chain ≡ queue.old.chain }
    ensures keys { queue.new.keys ≡ queue.old.keys }
{
    let all = compilation.files.as_slice();
    let found = submodules_at(alloc, files, os, all, place)?;
    add_all(all, queue, found.as_slice(), place, module)
}

/// Puts the submodules of the module's files, which are those from the place `first` on, with those that
/// are still to load. The module was loaded last.
pub fn find_all<'src>(
    alloc: Global,
    files: &Files<'src, '_>,
    os: Os,
    compilation: &Compilation<'src>,
    queue: &mut Queue<'src>,
    first: usize,
    module: usize,
) -> Result<(), Error<'src>>
    ensures pending { OnOk result ((more : List Waiting) × AreWaiting files.now os compilation.now.files.items queue.old.keys «module» first (length compilation.now.files.items - first) more × (map waiting_view queue.new.pending.items ≡ map waiting_view queue.old.pending.items ++ more)) }
    ensures refused { IfErr result (λ refusal. refusal ≢ refusals.OutOfMemory → IsRefusedAmong files.now os compilation.now.files.items queue.old.keys «module» first (length compilation.now.files.items - first) refusal) }
    ensures chain { queue.new.chain ≡ queue.old.chain }
    ensures keys { queue.new.keys ≡ queue.old.keys }
{
    for place in first..compilation.files.len() {
        find_submodules(alloc, files, os, compilation, queue, place, module)?;
    }
    Ok(())
}
