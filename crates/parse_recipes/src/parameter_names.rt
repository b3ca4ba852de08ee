//! The names of the parameters that were read.
ghost use Rattle.std.specs.Prelude.{◌≡◌, ◌||◌, ℕ, [], List, OnOk};
ghost use Rattle.std.specs.Str.{bytes_eq};
ghost use Rattle.parse_recipes.specs.Seen.{HasRead, is_first, is_read};

use std::alloc::{AllocError, Global};
use std::collections::BTreeSet;

/// The names of the parameters of a recipe that were read. One name takes no memory: most recipes
/// have one parameter or none.
#[derive(Drop)]
pub(crate) struct ParameterNames<'src> {
    /// The name that was read first.
    first: Option<&'src str>,
    /// The others.
    others: BTreeSet<&'src str>,
}

/// Whether the name is the first.
fn is_first(first: &Option<&str>, name: &str) -> bool
    ensures { result ≡ is_first first.now name.now }
{
    match first {
        Some(first) => name == *first,
        None => false,
    }
}

impl<'src> ParameterNames<'src> {
    /// No names, which take no memory.
    pub(crate) fn new(alloc: Global) -> ParameterNames<'src>
        ensures { HasRead result [] }
    {
        ParameterNames {
            first: None,
            others: BTreeSet::new(alloc),
        }
    }

    /// Whether a parameter of this name was read.
    pub(crate) fn has(&self, name: &str) -> bool
        ensures { result ≡ is_read self.now name.now }
    {
        is_first(&self.first, name) || self.others.contains(name)
    }

    /// A parameter of this name was read, too. Refused only where memory runs out.
    pub(crate) fn add(&mut self, name: &'src str) -> Result<(), AllocError>
        ensures { OnOk result ((other : List ℕ) → is_read self.new other ≡ (bytes_eq other name.entry.now || is_read self.old other)) }
    {
        if self.first.is_none() {
            self.first = Some(name);
            return Ok(());
        }
        match self.others.insert(name) {
            Ok(_) => Ok(()),
            Err(_) => Err(AllocError),
        }
    }
}
