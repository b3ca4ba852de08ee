//! Which function a call calls.
ghost use Rattle.std.specs.Prelude.{◌≡◌, ℕ, List, None, OnOk, Some, if◌then◌else◌};
ghost use Rattle.std.specs.Str.{bytes_eq};
ghost use Rattle.evaluate_functions.specs.Names.{function_of};
ghost use Rattle.just_text.specs.Tokens.{lexeme};
ghost use Rattle.resolve_references.specs.Functions.{builtin_call, call_of, defined_call, function_in};

use evaluate_functions::Function;
use just_text::{Name, Text};
use std::alloc::{AllocError, AllocFailed, Global};
use std::collections::BTreeMap;

/// A function that a module defines.
#[derive(Clone, Copy, Debug)]
pub struct DefinedFunction {
    /// Its place among the module's functions.
    pub place: usize,
    /// How many parameters it has.
    pub parameters: usize,
}

/// The functions that a module defines, by their names.
#[derive(Drop)]
pub struct FunctionNames<'src> {
    functions: BTreeMap<&'src str, DefinedFunction>,
}

/// What a call calls.
#[derive(Clone, Copy)]
pub enum Called {
    Builtin(Function),
    /// The function at this place among the module's.
    Defined(usize),
}

/// Why a call calls nothing.
#[derive(Clone, Copy, Debug)]
pub enum CallFault<'src> {
    /// No function has the name.
    UnknownFunction(Name<'src>),
    /// The function does not take so many arguments.
    FunctionArgumentCount { name: Name<'src>, found: usize },
}

impl<'src> FunctionNames<'src> {
    /// No functions. Takes no memory.
    #[tactic(auto, unfolding(crate::specs::Functions::function_in))]
    pub fn new(alloc: Global) -> FunctionNames<'src>
        ensures { (name : List ℕ) → function_in result name ≡ None }
    {
        FunctionNames {
            functions: BTreeMap::new(alloc),
        }
    }

    /// Gives the name to the function, in place of an earlier one, and leaves the other names as they
    /// are. Refused only where memory is.
    pub fn insert(&mut self, name: &'src str, function: DefinedFunction) -> Result<(), AllocError>
        ensures { OnOk result ((other : List ℕ) → function_in self.new other ≡ (if bytes_eq name.entry.now other then Some function else function_in self.old other)) }
    {
        match self.functions.insert(name, function) {
            Ok(_) => Ok(()),
            Err(_) => Err(AllocError),
        }
    }

    /// The function of this name, if the module defines it. Takes no memory.
    #[tactic(auto, unfolding(crate::specs::Functions::function_in))]
    pub fn get(&self, name: &str) -> Option<DefinedFunction>
        ensures { result ≡ function_in self.now name.now }
    {
        self.functions.get(name).copied()
    }
}

/// What a call of the module's function calls. Refused where the function has another number of
/// parameters.
fn resolve_defined_call<'src>(
    function: DefinedFunction,
    name: Name<'src>,
    arguments: usize,
) -> Result<Called, CallFault<'src>>
    ensures { result ≡ defined_call function name.entry arguments }
{
    if function.parameters == arguments {
        Ok(Called::Defined(function.place))
    } else {
        Err(CallFault::FunctionArgumentCount {
            name,
            found: arguments,
        })
    }
}

/// What a call of the built-in function of this name calls. Refused where there is none, and where it
/// does not take so many arguments.
fn resolve_builtin_call<'src>(name: Name<'src>, arguments: usize) -> Result<Called, CallFault<'src>>
    ensures { result ≡ builtin_call (function_of (lexeme name.entry.token)) name.entry arguments }
{
    match Function::get(name.lexeme()) {
        None => Err(CallFault::UnknownFunction(name)),
        Some(function) if function.expected_arguments().takes(arguments) => {
            Ok(Called::Builtin(function))
        }
        Some(_) => Err(CallFault::FunctionArgumentCount {
            name,
            found: arguments,
        }),
    }
}

/// What a call of this name with so many arguments calls: the module's function, else the built-in
/// one. Refused where no function has the name, and where the function takes another number of
/// arguments. Takes no memory.
pub fn resolve_call<'src>(
    functions: &FunctionNames<'src>,
    name: Name<'src>,
    arguments: usize,
) -> Result<Called, CallFault<'src>>
    ensures { result ≡ call_of (function_in functions.now) name.entry arguments }
{
    match functions.get(name.lexeme()) {
        Some(function) => resolve_defined_call(function, name, arguments),
        None => resolve_builtin_call(name, arguments),
    }
}
