//! Names that have numbers.
ghost use Rattle.std.specs.Prelude.{◌≡◌, ℕ, IfOk, List, None, OnOk, Some, map, if◌then◌else◌};
ghost use Rattle.std.specs.Str.{bytes_eq};
ghost use Rattle.tree_items.specs.Contexts.{goes_first, last_named, named_number, number_in, number_of_first, parameter_number};

use crate::recipe::Parameter;
use just_text::{Name, Number};
use std::alloc::{AllocError, Global};
use std::collections::BTreeMap;

/// Names, each with the number of what it names. One name takes no memory: most recipes have one
/// parameter or none.
pub struct ExpressionContext<'src> {
    /// The name that came first.
    first: Option<(&'src str, Number)>,
    /// The others.
    numbers: BTreeMap<&'src str, Number>,
}

impl Drop for ExpressionContext<'_> {
    fn drop(self) {
        let ExpressionContext {
            first: _first,
            numbers: _numbers,
        } = self;
    }
}

/// The number of the first name, if it is this one.
fn number_of_first(first: &Option<(&str, Number)>, name: &str) -> Option<Number>
    ensures { result ≡ number_of_first first.now name.now }
{
    match first {
        Some((text, number)) => { if *text == name { Some(*number) } else { None } }
        None => None,
    }
}

/// Whether the name's number is kept beside the first name: it is that, or there is none.
fn goes_first(first: &Option<(&str, Number)>, name: &str) -> bool
    ensures { result ≡ goes_first first.now name.now }
{
    match first {
        Some((text, _)) => *text == name,
        None => true,
    }
}

impl<'src> ExpressionContext<'src> {
    /// A context without names, which takes no memory.
    #[tactic(auto, unfolding(crate::specs::Contexts::number_in))]
    pub fn new(alloc: Global) -> ExpressionContext<'src>
        ensures { (name : List ℕ) → number_in result name ≡ None }
    {
        ExpressionContext {
            first: None,
            numbers: BTreeMap::new(alloc),
        }
    }

    /// The number of the name, if it has one. Takes no memory.
    #[tactic(auto, unfolding(crate::specs::Contexts::number_in))]
    pub fn lookup(&self, name: &str) -> Option<Number>
        ensures { result ≡ number_in self.now name.now }
    {
        match number_of_first(&self.first, name) {
            Some(number) => Some(number),
            None => self.numbers.get(name).copied(),
        }
    }

    /// Gives the name this number, and leaves the other names as they are. Refused only where memory
    /// is.
    pub fn set(&mut self, name: &'src str, number: Number) -> Result<(), AllocError>
        ensures { OnOk result ((other : List ℕ) → number_in self.new other ≡ (if bytes_eq name.entry.now other then Some number else number_in self.old other)) }
    {
        if goes_first(&self.first, name) {
            self.first = Some((name, number));
            return Ok(());
        }
        match self.numbers.insert(name, number) {
            Ok(_) => Ok(()),
            Err(_) => Err(AllocError),
        }
    }

    /// These names with their numbers; of equal names the last has its number. Refused where memory
    /// runs out.
    pub fn from_names(
        alloc: Global,
        names: &[(Name<'src>, Number)],
    ) -> Result<ExpressionContext<'src>, AllocError>
        ensures { IfOk result (λ context. (name : List ℕ) → number_in context name ≡ last_named name (map named_number names.now)) }
    {
        let mut context = ExpressionContext::new(alloc);
        for (name, number) in names {
            context.set(name.lexeme(), *number)?;
        }
        Ok(context)
    }

    /// The names of these parameters with the parameters' numbers; of equal names the last has its
    /// number. Refused where memory runs out.
    pub fn from_parameters(
        alloc: Global,
        parameters: &[Parameter<'src>],
    ) -> Result<ExpressionContext<'src>, AllocError>
        ensures { IfOk result (λ context. (name : List ℕ) → number_in context name ≡ last_named name (map parameter_number parameters.now)) }
    {
        let mut context = ExpressionContext::new(alloc);
        for parameter in parameters {
            context.set(parameter.name.lexeme(), parameter.number)?;
        }
        Ok(context)
    }
}
