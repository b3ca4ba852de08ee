//! What expressions of a module read, by places.
ghost use Rattle.std.specs.Prelude.{◌≡◌, ◌≢◌, ℕ, nat_eq, if◌then◌else◌, IfErr, IfOk, List, None, OnOk, Ok, Err, Some};
ghost use Rattle.resolve_references.specs.declared.read_fault.ReadFault.TheVariants.{OutOfMemory};
ghost use Rattle.resolve_references.specs.Functions.{call_of, function_in};
ghost use Rattle.resolve_references.specs.Places.{place_of, place_of_called, place_of_resolved, place_of_variable, places_of, variable_in};
ghost use Rattle.resolve_references.specs.References.{references_of};
ghost use Rattle.std.specs.Str.{bytes_eq};

use crate::functions::{Called, DefinedFunction, FunctionNames, resolve_call};
use crate::read_fault::ReadFault;
use crate::references::{Reference, References};
use just_text::{Name, Number};
use std::alloc::{AllocError, Global};
use std::collections::BTreeMap;
use tree_expressions::Expression;

/// The variables and functions of a module, each with its place: the variables stand first, and the
/// functions after them.
#[derive(Drop)]
pub struct VariableResolver<'src> {
    numbers: BTreeMap<Number, usize>,
    functions: FunctionNames<'src>,
    variables: usize,
}

impl<'src> VariableResolver<'src> {
    /// For a module with so many variables, of which none is known yet. Takes no memory.
    #[tactic(auto, unfolding(crate::specs::Places::variable_in))]
    pub fn new(alloc: Global, variables: usize) -> VariableResolver<'src>
        ensures variables { result.variables ≡ variables }
        ensures none { (number : ℕ) → variable_in result number ≡ None }
        ensures no_functions { (name : List ℕ) → function_in result.functions name ≡ None }
    {
        VariableResolver {
            numbers: BTreeMap::new(alloc),
            functions: FunctionNames::new(alloc),
            variables,
        }
    }

    /// How many variables the module has.
    pub fn variables(&self) -> usize
        ensures { result ≡ self.now.variables }
    {
        self.variables
    }

    /// Gives the variable of this number its place, and leaves the other variables and the functions
    /// as they are. Refused only where memory is.
    pub fn add_variable(&mut self, number: Number, place: usize) -> Result<(), AllocError>
        ensures places { OnOk result ((other : ℕ) → variable_in self.new other ≡ (if nat_eq number other then Some place else variable_in self.old other)) }
        ensures variables { self.new.variables ≡ self.old.variables }
        ensures functions { self.new.functions ≡ self.old.functions }
    {
        match self.numbers.insert(number, place) {
            Ok(_) => Ok(()),
            Err(_) => Err(AllocError),
        }
    }

    /// Gives the function of this name its place among the functions, and leaves the other functions
    /// and the variables as they are. Refused only where memory is.
    pub fn add_function(
        &mut self,
        name: &'src str,
        function: DefinedFunction,
    ) -> Result<(), AllocError>
        ensures functions { OnOk result ((other : List ℕ) → function_in self.new.functions other ≡ (if bytes_eq name.entry.now other then Some function else function_in self.old.functions other)) }
        ensures variables { self.new.variables ≡ self.old.variables }
        ensures numbers { self.new.numbers ≡ self.old.numbers }
    {
        self.functions.insert(name, function)
    }

    /// The place of the variable of this number. Takes no memory.
    #[tactic(auto, unfolding(crate::specs::Places::variable_in))]
    pub fn variable(&self, number: Number) -> Option<usize>
        ensures { result ≡ variable_in self.now number }
    {
        self.numbers.get(&number).copied()
    }

    /// The place of what a name reads; a parameter and a constant have none.
    fn variable_place(
        &self,
        name: Name<'src>,
        number: Option<Number>,
    ) -> Result<Option<usize>, ReadFault<'src>>
        ensures { result ≡ place_of_variable self.now name.entry number }
    {
        match number {
            Some(number) => Ok(self.variable(number)),
            None => Err(ReadFault::UndefinedVariable(name)),
        }
    }

    /// The place of what is called; a built-in function has none.
    fn called_place(&self, called: Called) -> Option<usize>
        ensures { result ≡ place_of_called self.now.variables called }
    {
        match called {
            Called::Builtin(_) => None,
            Called::Defined(place) => self.variables.checked_add(place),
        }
    }

    /// The place of what a call calls.
    fn call_place(
        &self,
        name: Name<'src>,
        arguments: usize,
    ) -> Result<Option<usize>, ReadFault<'src>>
        ensures { result ≡ place_of_resolved self.now.variables (call_of (function_in self.now.functions) name.entry arguments) }
    {
        match resolve_call(&self.functions, name, arguments) {
            Ok(called) => Ok(self.called_place(called)),
            Err(fault) => Err(ReadFault::from(fault)),
        }
    }

    fn place(&self, reference: &Reference<'src>) -> Result<Option<usize>, ReadFault<'src>>
        ensures { result ≡ place_of self.now reference.now }
    {
        match reference {
            Reference::Call { name, arguments } => self.call_place(*name, *arguments),
            Reference::Variable { name, number } => self.variable_place(*name, *number),
        }
    }

    /// The places of the module's variables and functions that are read and called there, in order
    /// and as often. Refused where a name stands for no variable, a call calls no function, or one
    /// that takes another number of arguments; and where memory runs out.
    pub fn resolve_references(
        &self,
        alloc: Global,
        references: &References<'src>,
    ) -> Result<Vec<usize>, ReadFault<'src>>
        ensures ok { IfOk result (λ places. places_of self.now references.now.list.items ≡ Ok places.items) }
        ensures err { IfErr result (λ fault. fault ≢ OutOfMemory → places_of self.now references.now.list.items ≡ Err fault) }
    {
        let mut places = Vec::new(alloc);
        for reference in references.as_slice() {
            if let Some(place) = self.place(reference)? {
                places.push(place)?;
            }
        }
        Ok(places)
    }

    /// The same of an expression whose variables have their numbers.
    pub fn resolve_expression(
        &self,
        alloc: Global,
        expression: &Expression<'src>,
    ) -> Result<Vec<usize>, ReadFault<'src>>
        ensures ok { IfOk result (λ places. places_of self.now (references_of expression.now) ≡ Ok places.items) }
        ensures err { IfErr result (λ fault. fault ≢ OutOfMemory → places_of self.now (references_of expression.now) ≡ Err fault) }
    {
        let references = References::of(alloc, expression)?;
        self.resolve_references(alloc, &references)
    }
}
