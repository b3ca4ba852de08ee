//! Paths of names.
ghost use Rattle.std.specs.Prelude.{◌≡◌, ◌<◌, ◌-◌, ◌++◌, ◌∷◌, [], length, is_ok, if◌then◌else◌, slice_get, IfOk, IfErr, Some};
ghost use Rattle.std.specs.Cmp.Rules.{comparing};
ghost use Rattle.std.proofs.Common.{rules};
ghost use Rattle.just_text.specs.Order.{names_cmp, names_eq, names_ties};

use crate::name::Name;
use std::alloc::{AllocError, AllocFailed, Global};
use std::cmp::Ordering;
use std::marker::Model;
use std::{fmt, slice};

/// The names of a path. Most paths are a name alone, which takes no memory.
#[derive(Drop)]
enum Names<'src> {
    One(Name<'src>),
    Several(Vec<Name<'src>>),
}

/// One or more names: those of the modules that lead to an item, and the item's own.
#[derive(Drop)]
pub struct Namepath<'src> {
    names: Names<'src>,
    alloc: Global,
}

impl<'src> Model for Namepath<'src> {
    ghost use Rattle.std.specs.Prelude.{List, ◌<◌, length};
    ghost use Rattle.just_text.specs.Paths.{names_in};
    ghost use Rattle.just_text.specs.declared.name.Name.{Name};

    ghost Value = { List Name };

    ghost view = { λ p. names_in p.names };

    ghost invariant = { λ p. 0 < length (names_in p.names) };
}

/// The two names. Refused only where memory is.
fn pair<'src>(
    alloc: Global,
    first: Name<'src>,
    second: Name<'src>,
) -> Result<Vec<Name<'src>>, AllocError>
    ensures { IfOk result (λ names. names.items ≡ first.entry ∷ second.entry ∷ []) }
{
    let mut names = Vec::with_capacity(alloc, 2)?;
    names.push(first)?;
    names.push(second)?;
    Ok(names)
}

impl<'src> Namepath<'src> {
    /// The path of a name alone, which takes no memory.
    pub fn from_name(alloc: Global, name: Name<'src>) -> Result<Namepath<'src>, AllocError>
        ensures { IfOk result (λ p. p ≡ name.entry ∷ []) }
    {
        let names = Names::One(name);
        Ok(Namepath { names, alloc })
    }

    /// Puts a name after the others. A refused growth changes nothing and gives the name back.
    pub fn push(&mut self, name: Name<'src>) -> Result<(), AllocFailed<Name<'src>>>
        ensures grown { self.new ≡ (if is_ok result then self.old ++ name.entry ∷ [] else self.old) }
        ensures returned { IfErr result (λ e. e.value ≡ name.entry) }
    {
        let first = match &mut self.names {
            Names::One(first) => *first,
            Names::Several(names) => return names.push(name),
        };
        match pair(self.alloc, first, name) {
            Ok(names) => {
                self.names = Names::Several(names);
                Ok(())
            }
            Err(_) => Err(AllocFailed { value: name }),
        }
    }

    /// The names, of which there is at least one.
    pub fn names(&self) -> &[Name<'src>]
        ensures value { result.now ≡ self.now }
        ensures some { 0 < length result.now }
    {
        match &self.names {
            Names::One(name) => slice::from_ref(name),
            Names::Several(names) => names.as_slice(),
        }
    }

    /// The item's own name.
    pub fn last(&self) -> Name<'src>
        ensures { slice_get self.now (length self.now - 1) ≡ Some result }
    {
        match &self.names {
            Names::One(name) => *name,
            Names::Several(names) => names[names.len() - 1],
        }
    }
}

impl Clone for Namepath<'_> {
    ghost is_clone = { λ s t. t ≡ s };

    fn clone(&self) -> Result<Self, AllocError> {
        let names = match &self.names {
            Names::One(name) => Names::One(*name),
            Names::Several(names) => Names::Several(names.clone()?),
        };
        Ok(Namepath {
            names,
            alloc: self.alloc,
        })
    }
}

impl fmt::Display for Namepath<'_> {
    ghost use Rattle.just_text.specs.Names.{path_text};

    ghost output = { λ path. Some (path_text path) };

    fn fmt<W: fmt::Write>(&self, f: &mut fmt::Formatter<W>) -> fmt::Result {
        let Some((first, others)) = self.names().split_first() else {
            return Ok(());
        };
        write!(f, "{first}")?;
        for name in others {
            write!(f, "::{name}")?;
        }
        Ok(())
    }
}

impl fmt::Debug for Namepath<'_> {
    fn fmt<W: fmt::Write>(&self, f: &mut fmt::Formatter<W>) -> fmt::Result {
        fmt::Debug::fmt(self.names(), f)
    }
}

impl PartialEq for Namepath<'_> {
    ghost eq = { names_eq };

    ghost laws = { Prim.search (comparing, rules) depth 12 };

    fn eq(&self, other: &Self) -> bool {
        self.names() == other.names()
    }
}

impl Eq for Namepath<'_> {
    ghost laws = { Prim.search (comparing, rules) depth 12 };
}

impl PartialOrd for Namepath<'_> {
    ghost use Rattle.std.specs.Cmp.{partial_order_from_own_ties};
    ghost use Rattle.std.specs.Ordering.{as_partial_cmp};

    ghost partial_cmp = { as_partial_cmp names_cmp };

    ghost laws = { partial_order_from_own_ties (Prim.search (comparing, rules) depth 12) names_ties };

    fn partial_cmp(&self, other: &Self) -> Option<Ordering> {
        Some(self.cmp(other))
    }
}

/// Name by name, from the first one on.
impl Ord for Namepath<'_> {
    ghost cmp = { names_cmp };

    ghost total = { Prim.search (comparing, rules) depth 12 };

    ghost matches_partial_cmp = { Prim.search (comparing, rules) };

    ghost matches_eq = { names_ties };

    fn cmp(&self, other: &Self) -> Ordering {
        self.names().cmp(other.names())
    }
}
