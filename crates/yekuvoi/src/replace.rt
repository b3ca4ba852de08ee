//! A file's text anew.
use std::alloc::{AllocError, Global};
use std::fs::{Metadata, OpenFile, OpenOptions, Permissions};
use std::io::{Read, Write};
use std::os::fd::AsFd;
use std::os::unix::fs::{MetadataExt, OpenOptionsExt, PermissionsExt, fchown};
use std::rt::Files;
use std::{fs, io};

/// The name of the new file, before it is put in the old one's place.
pub const NEW_NAME: &str = ".just-format";

/// A new file is made so: its owner alone reads and writes it.
const NEW_MODE: u32 = 0o600;

/// The bits of a mode that say who may read, write and run a file.
const ACCESS: u32 = 0o777;

/// What a file says, and what it is to say.
#[derive(Clone, Copy)]
pub struct Change<'a> {
    pub before: &'a str,
    pub after: &'a str,
}

/// What became of a file that was to have another text.
#[derive(Clone, Copy, Debug, PartialEq, Eq)]
pub enum Replaced {
    /// It has the other text.
    Whole,
    /// It is as it was, since there is a file that has the new one's name.
    Taken,
    /// It is as it was, since it no longer said what was expected.
    Changed,
}

/// The file that is replaced.
#[derive(Drop)]
struct Old {
    path: String,
    found: Metadata,
}

/// A new file at the path, or the fault.
fn create<R: Files>(rt: &R, path: &str) -> io::Result<R::File> {
    OpenOptions::new()
        .write(true)
        .create_new(true)
        .mode(NEW_MODE)
        .open(rt, path)
}

/// The mode of a new file in the place of one of this mode. Where its group is another one, that may do only what
/// all others may.
fn mode_for(old: u32, has_group: bool) -> u32 {
    let access = old & ACCESS;
    if has_group {
        return access;
    }
    (access & 0o707) | (access & 0o070 & (access << 3))
}

/// Whether the new file has the old one's group, which it is given if the system lets it.
fn takes_group<F: AsFd + Drop>(file: &F, new: &Metadata, old: &Metadata) -> bool {
    new.gid() == old.gid() || fchown(file, None, Some(old.gid())).is_ok()
}

/// Gives the new file the mode.
fn give_mode<F: OpenFile>(file: &F, new: &Metadata, mode: u32) -> io::Result<()> {
    if new.mode() & ACCESS == mode {
        return Ok(());
    }
    file.set_permissions(Permissions::from_mode(mode))
}

/// Gives the new file the old one's owner, if the system lets it.
fn give_owner<F: AsFd + Drop>(file: &F, new: &Metadata, old: &Metadata) {
    if new.uid() != old.uid() {
        let _ = fchown(file, Some(old.uid()), None);
    }
}

/// Gives the new file the old one's group, mode and owner.
fn liken<F: OpenFile + AsFd + Drop>(file: &F, old: &Metadata) -> io::Result<()> {
    let new = file.metadata()?;
    let has_group = takes_group(file, &new, old);
    give_mode(file, &new, mode_for(old.mode(), has_group))?;
    give_owner(file, &new, old);
    Ok(())
}

/// Writes the text into the new file, which is then as the old one is, and on the disk.
fn write<F: Write + OpenFile + AsFd + Drop>(
    mut file: F,
    text: &str,
    old: &Metadata,
) -> io::Result<()> {
    file.write_all(text.as_bytes())?;
    liken(&file, old)?;
    file.sync_all()
}

/// The bytes of the file at the path, as far as one more than so many.
fn bytes_of<R: Files + Alloc<A = Global>>(rt: &R, path: &str, length: u64) -> io::Result<Vec<u8>> {
    let mut bytes = Vec::new(rt.alloc());
    let file = fs::open(rt, path)?;
    file.take(length.saturating_add(1)).read_to_end(&mut bytes)?;
    Ok(bytes)
}

/// Whether the path is that of a regular file, which a link is not, that has this text.
fn has_text<R: Files + Alloc<A = Global>>(rt: &R, path: &str, text: &str) -> io::Result<bool> {
    let length = text.len() as u64;
    let found = fs::symlink_metadata(rt, path)?;
    if !found.is_file() || found.len() != length {
        return Ok(false);
    }
    let bytes = bytes_of(rt, path, length)?;
    Ok(bytes.as_slice() == text.as_bytes())
}

/// Writes the new file, and puts it in the old one's place where that has the text that it had.
fn put<R: Files + Alloc<A = Global>>(
    rt: &R,
    new: &str,
    file: R::File,
    old: &Old,
    change: Change<'_>,
) -> io::Result<Replaced>
where
    R::File: AsFd,
{
    write(file, change.after, &old.found)?;
    if !has_text(rt, old.path.as_str(), change.before)? {
        return Ok(Replaced::Changed);
    }
    fs::rename(rt, new, old.path.as_str())?;
    Ok(Replaced::Whole)
}

/// What became of the file; the new one is gone again where it was not put in the old one's place.
fn kept<R: Files>(rt: &R, new: &str, answer: io::Result<Replaced>) -> io::Result<Replaced> {
    if !matches!(answer, Ok(Replaced::Whole)) {
        let _ = fs::remove_file(rt, new);
    }
    answer
}

/// Puts a new file at the path in the old one's place, unless there is a file of that name.
fn replace_by<R: Files + Alloc<A = Global>>(
    rt: &R,
    new: &str,
    old: &Old,
    change: Change<'_>,
) -> io::Result<Replaced>
where
    R::File: AsFd,
{
    match create(rt, new) {
        Ok(file) => kept(rt, new, put(rt, new, file, old, change)),
        Err(fault) if fault.kind() == io::ErrorKind::AlreadyExists => Ok(Replaced::Taken),
        Err(fault) => Err(fault),
    }
}

/// The path of the file of this name in the folder.
fn path_in(alloc: Global, folder: &str, name: &str) -> Result<String, AllocError> {
    format!(in alloc; "{folder}/{name}")
}

/// The file of this name in the folder.
fn old_file<R: Files + Alloc<A = Global>>(rt: &R, folder: &str, name: &str) -> io::Result<Old> {
    let path = path_in(rt.alloc(), folder, name)?;
    let found = fs::symlink_metadata(rt, path.as_str())?;
    Ok(Old { path, found })
}

/// Writes the text after the change into a new file of the folder, named `.just-format`, and puts it in the place of the
/// file of this name there. The new file belongs to its owner alone until it has the old one's group, mode and owner, the
/// group and the owner where the system lets it, and it is on the disk before it is put there. Right before that the old
/// one is read again. Where a step fails, where there is a file of the new one's name, and where the old one no longer has
/// the text before the change, the old file is as it was, and the new one is not left.
pub fn replace<R: Files + Alloc<A = Global>>(
    rt: &R,
    folder: &str,
    name: &str,
    change: Change<'_>,
) -> io::Result<Replaced>
where
    R::File: AsFd,
{
    let old = old_file(rt, folder, name)?;
    let new = path_in(rt.alloc(), folder, NEW_NAME)?;
    replace_by(rt, new.as_str(), &old, change)
}
