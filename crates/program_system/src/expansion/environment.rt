//! The variables of the environment.
ghost use Rattle.std.specs.Prelude.{◌≡◌, option_copied};
ghost use Rattle.program_system.specs.Expanded.{value};

use std::alloc::{AllocError, Global};
use std::collections::BTreeMap;
use std::env::FillError;
use std::rt::{Env, Files};
use std::{fs, io};

/// The file that shows the entries that the process was started with, each ended by a NUL byte.
const ENTRIES: &str = "/proc/self/environ";

/// A variable is at most so many bytes long with its name, since the system takes no longer one.
const ENTRY_SIZE: usize = 131_072;

/// The variables of the environment whose names and values are UTF-8, as they were read at the start.
#[derive(Drop)]
pub struct Environment {
    pub variables: BTreeMap<String, String>,
}

impl Environment {
    /// An environment without variables, which takes no memory.
    pub fn new(alloc: Global) -> Environment {
        Environment {
            variables: BTreeMap::new(alloc),
        }
    }

    /// The value of the variable of this name.
    pub fn value(&self, name: &str) -> Option<&str>
        ensures { option_copied result ≡ value self.now name.now }
    {
        self.variables.get(name).map(|value| value.as_str())
    }

    /// Sets a variable, unless it is set.
    pub fn set(&mut self, alloc: Global, name: &str, value: &str) -> Result<(), AllocError> {
        if self.variables.contains_key(name) {
            return Ok(());
        }
        let name = String::from_str(alloc, name)?;
        let value = String::from_str(alloc, value)?;
        self.variables.insert(name, value)?;
        Ok(())
    }

    /// Takes an entry `NAME=value` in, unless it isn't UTF-8 or has no name.
    fn take(&mut self, alloc: Global, entry: &[u8]) -> Result<(), AllocError> {
        let Ok(entry) = std::str::from_utf8(entry) else {
            return Ok(());
        };
        match entry.split_once('=') {
            Some((name, value)) if !name.is_empty() => self.set(alloc, name, value),
            _ => Ok(()),
        }
    }

    /// The variables of these entries, each ended by a NUL byte, of which the first of a name counts.
    fn from_entries(alloc: Global, entries: &[u8]) -> Result<Environment, AllocError> {
        let mut environment = Environment::new(alloc);
        for entry in entries.split(|byte| *byte == 0) {
            environment.take(alloc, entry)?;
        }
        Ok(environment)
    }

    /// The variables of the process by the places of their entries, of which the first of a name counts. The system goes
    /// to each entry from the first.
    fn read_by_place<R: Env + Alloc<A = Global>>(rt: &R) -> Result<Environment, AllocError> {
        let alloc = rt.alloc();
        let mut environment = Environment::new(alloc);
        let mut entry = vec![in alloc; 0u8; ENTRY_SIZE]?;
        for place in 0..usize::MAX {
            match rt.var_at(place, entry.as_mut_slice()) {
                Ok(length) => environment.take(alloc, &entry[..length])?,
                Err(FillError::TooLong) => {}
                Err(FillError::NotPresent) => break,
            }
        }
        Ok(environment)
    }

    /// The variables that the process was started with, of which the first of a name counts: those that the system shows
    /// in a file, and where that can't be read, those at each place.
    pub fn read<R: Env + Files + Alloc<A = Global>>(rt: &R) -> Result<Environment, AllocError> {
        match fs::read(rt, ENTRIES) {
            Ok(entries) => Environment::from_entries(rt.alloc(), entries.as_slice()),
            Err(fault) if fault.kind() == io::ErrorKind::OutOfMemory => Err(AllocError),
            Err(_) => Environment::read_by_place(rt),
        }
    }
}
