//! Which definitions a module keeps.
ghost use Rattle.std.specs.Prelude.{◌≡◌, IfOk, IfErr, OnOk};
ghost use Rattle.modules_definitions.specs.Keeping.{may_repeat, refusal_of, AreInOrder, AreKept, IsDuplicate, IsRefused};
ghost use Rattle.modules_definitions.specs.declared.definition.Definition.{Definition};
ghost use Rattle.modules_compilation.specs.declared.error.Error.TheVariants.{OutOfMemory};
ghost use Rattle.modules_definitions.specs.Steps.{Step, IsBetter, IsClash, IsClashAfter, all_kept};

use crate::definition::{Definition, Kind};
use modules_compilation::Error;
use std::alloc::Global;

/// What a module may define twice.
#[derive(Clone, Copy)]
pub struct Allowed {
    pub duplicate_recipes: bool,
    pub duplicate_variables: bool,
}

/// The refusal of a second definition of a name.
fn duplicate<'src>(second: &Definition<'src, '_>) -> Error<'src>
    ensures { result ≡ refusal_of second.now }
{
    let name = *second.name;
    match second.kind {
        Kind::Set => Error::DuplicateSet(name),
        Kind::Unexport => Error::DuplicateUnexport(name),
        Kind::Variable => Error::DuplicateVariable(name),
        Kind::Alias | Kind::Disabled | Kind::Function | Kind::Module(_) | Kind::Recipe => {
            Error::Redefinition(name)
        }
    }
}

/// Whether a definition of the kind may stand beside others of its name.
fn may_repeat(kind: Kind, allowed: Allowed) -> bool
    ensures { result ≡ may_repeat allowed kind }
{
    match kind {
        Kind::Recipe => allowed.duplicate_recipes,
        Kind::Variable => allowed.duplicate_variables,
        Kind::Alias
        | Kind::Disabled
        | Kind::Function
        | Kind::Module(_)
        | Kind::Set
        | Kind::Unexport => false,
    }
}

/// The one that is kept of two definitions of a name, of which the first comes first in reading
/// order: that of the earlier file, and within a file the later one.
///
/// Refused where there may be one alone.
fn kept_of<'src, 'a>(
    first: Definition<'src, 'a>,
    second: Definition<'src, 'a>,
    allowed: Allowed,
) -> Result<Definition<'src, 'a>, Error<'src>>
    ensures kept { IfOk result (λ one. IsBetter allowed first.entry second.entry one) }
    ensures refused { IfErr result (λ error. IsClash allowed first.entry second.entry error) }
{
    if !(may_repeat(first.kind, allowed) && may_repeat(second.kind, allowed)) {
        return Err(duplicate(&second));
    }
    if first.place.file == second.place.file {
        Ok(second)
    } else {
        Ok(first)
    }
}

/// The definitions that are kept of names that are done, and of the last name the one that is kept so
/// far.
#[derive(Drop)]
struct Keeper<'src, 'a> {
    done: Vec<Definition<'src, 'a>>,
    last: Option<Definition<'src, 'a>>,
}

impl<'src, 'a> Keeper<'src, 'a> {
    /// Takes the next definition. Refused where its name has one already and may have one alone, and
    /// where memory runs out.
    fn add(&mut self, next: Definition<'src, 'a>, allowed: Allowed) -> Result<(), Error<'src>>
        ensures step { OnOk result (Step allowed self.old.done.items self.old.last next.entry self.new.done.items self.new.last) }
        ensures refused { IfErr result (λ error. IsClashAfter allowed self.old.last next.entry error) }
    {
        let Some(last) = self.last else {
            self.last = Some(next);
            return Ok(());
        };
        if !last.shares_name(&next) {
            self.done.push(last)?;
            self.last = Some(next);
            return Ok(());
        }
        match kept_of(last, next, allowed) {
            Ok(one) => {
                self.last = Some(one);
                Ok(())
            }
            Err(error) => Err(error),
        }
    }

    /// All that are kept.
    fn finish(self) -> Result<Vec<Definition<'src, 'a>>, Error<'src>>
        ensures memory { IfErr result (λ error. error ≡ OutOfMemory) }
        ensures kept { IfOk result (λ kept. kept.items ≡ all_kept self.entry.done.items self.entry.last) }
    {
        let mut kept = self.done;
        if let Some(last) = self.last {
            kept.push(last)?;
        }
        Ok(kept)
    }
}

/// The definitions that are kept, in their order. Disabled recipes are kept all.
///
/// Refused as `DuplicateSet`, `DuplicateUnexport`, `DuplicateVariable` or `Redefinition` where a
/// name has two definitions and may have one, and where memory runs out.
pub fn kept<'src, 'a>(
    alloc: Global,
    definitions: &[Definition<'src, 'a>],
    allowed: Allowed,
) -> Result<Vec<Definition<'src, 'a>>, Error<'src>>
    requires { AreInOrder definitions.now }
    ensures kept { IfOk result (λ kept. AreKept definitions.now kept.items) }
    ensures clear { OnOk result ((second : Definition) → IsDuplicate allowed definitions.now second → ⊥) }
    ensures refused { IfErr result (λ error. IsRefused allowed definitions.now error) }
{
    let mut keeper = Keeper {
        done: Vec::new(alloc),
        last: None,
    };
    for next in definitions {
        match keeper.add(*next, allowed) {
            Ok(()) => {}
            Err(error) => return Err(error),
        }
    }
    keeper.finish()
}
