//! The folders below a folder that are entered.
use crate::below::is_folder;
use crate::walk::GIT;
use std::alloc::{AllocError, Global};
use std::collections::BTreeMap;
use std::rt::Files;

/// Which folders below a folder are entered, as far as they were looked at.
#[derive(Drop)]
pub struct Reach<'a> {
    /// The folder's path.
    folder: &'a str,
    /// Whether these are entered: the names of folders, each in the one before, with `/` between two.
    known: BTreeMap<String, bool>,
}

/// Whether a folder of this name may be entered.
fn may_be_entered(name: &str) -> bool {
    !name.is_empty() && name != GIT
}

/// Whether each of these names, with `/` between two, is that of a folder in the one before, the first in `folder`.
fn leads_on<R: Files + Alloc<A = Global>>(
    rt: &R,
    folder: &str,
    names: &str,
) -> Result<bool, AllocError> {
    let mut path = String::from_str(rt.alloc(), folder)?;
    for name in names.split('/') {
        path.push('/')?;
        path.push_str(name)?;
        if !may_be_entered(name) || !is_folder(rt, path.as_str())? {
            return Ok(false);
        }
    }
    Ok(true)
}

impl<'a> Reach<'a> {
    /// No folder below this one was looked at.
    pub fn new(alloc: Global, folder: &'a str) -> Reach<'a> {
        Reach {
            folder,
            known: BTreeMap::new(alloc),
        }
    }

    /// The folder's path.
    pub fn folder(&self) -> &'a str {
        self.folder
    }

    /// Keeps whether the folders are entered, and gives it.
    fn keep(&mut self, alloc: Global, names: &str, is_entered: bool) -> Result<bool, AllocError> {
        self.known
            .insert(String::from_str(alloc, names)?, is_entered)?;
        Ok(is_entered)
    }

    /// Whether these folders are entered, each of which is looked at where that isn't known.
    fn leads_on<R: Files + Alloc<A = Global>>(
        &mut self,
        rt: &R,
        names: &str,
    ) -> Result<bool, AllocError> {
        if let Some(is_entered) = self.known.get(names) {
            return Ok(*is_entered);
        }
        let is_entered = leads_on(rt, self.folder, names)?;
        self.keep(rt.alloc(), names, is_entered)
    }

    /// Whether the last of these folders, of this name, is entered from the one before.
    fn goes_on<R: Files + Alloc<A = Global>>(
        &self,
        rt: &R,
        names: &str,
        last: &str,
    ) -> Result<bool, AllocError> {
        if !may_be_entered(last) {
            return Ok(false);
        }
        let folder = self.folder;
        let path = format!(in rt.alloc(); "{folder}/{names}")?;
        is_folder(rt, path.as_str())
    }

    /// Whether these folders are entered. Those before the last are looked at only where it isn't known of them, so of
    /// folders in each other each is looked at once.
    fn is_entered<R: Files + Alloc<A = Global>>(
        &mut self,
        rt: &R,
        names: &str,
    ) -> Result<bool, AllocError> {
        if let Some(is_entered) = self.known.get(names) {
            return Ok(*is_entered);
        }
        let is_entered = match names.rsplit_once('/') {
            Some((front, last)) => self.leads_on(rt, front)? && self.goes_on(rt, names, last)?,
            None => self.goes_on(rt, names, names)?,
        };
        self.keep(rt.alloc(), names, is_entered)
    }

    /// Whether what stands before the last name of the path below the folder leads there by folders that are entered.
    pub fn leads_to<R: Files + Alloc<A = Global>>(
        &mut self,
        rt: &R,
        path: &str,
    ) -> Result<bool, AllocError> {
        match path.rsplit_once('/') {
            Some((names, _)) => self.is_entered(rt, names),
            None => Ok(true),
        }
    }
}
