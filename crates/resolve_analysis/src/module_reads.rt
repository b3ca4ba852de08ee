//! What the variables and functions of a module read.
ghost use Rattle.std.specs.Prelude.{◌≡◌, ◌≢◌, ℕ, List, length, IfOk, IfErr, OnOk, Ok, Err};
ghost use Rattle.std.specs.Option.{option_or};
ghost use Rattle.resolve_order.specs.Cycles.{IsReadReason};
ghost use Rattle.resolve_order.specs.Flooded.{AreReached};
ghost use Rattle.resolve_order.specs.Needs.{rows};
ghost use Rattle.resolve_order.specs.Reads.{IsVariableOrder};
ghost use Rattle.resolve_references.specs.Functions.{function_in};
ghost use Rattle.resolve_references.specs.Places.{variable_in};
ghost use Rattle.resolve_references.specs.declared.read_fault.ReadFault.TheVariants.{OutOfMemory};
ghost use Rattle.resolve_analysis.specs.Lists.{functions_in, kept_in, variables_in};
ghost use Rattle.resolve_analysis.specs.Reads.{IsRefusal, IsResolverOf, bodies, defined_if_named, expressions_of, last_found, overridden_by, place_if_numbered, right_sides, rows_before, rows_of};

use crate::module_lists::ModuleLists;
use evaluate_context::{AssignmentRef, FunctionRef};
use just_text::Number;
use resolve_order::{OrderFault, reached, variable_order};
use resolve_references::{DefinedFunction, ReadFault, VariableResolver};
use std::alloc::{AllocError, Global};
use std::collections::BTreeMap;

/// The variables and functions of a module as places, and what each reads and calls.
#[derive(Drop)]
pub struct ModuleReads<'src> {
    pub resolver: VariableResolver<'src>,
    /// What each variable, and after them each function, reads and calls.
    pub graph: Vec<Vec<usize>>,
    /// Which variables are overridden.
    pub overridden: Vec<bool>,
}

fn add_variables<'src>(
    resolver: &mut VariableResolver<'src>,
    assignments: &[AssignmentRef<'_, 'src>],
) -> Result<(), AllocError>
    ensures places { OnOk result ((number : ℕ) → variable_in resolver.new number ≡ option_or (last_found (place_if_numbered number) 0 (variables_in assignments.entry.now)) (variable_in resolver.old number)) }
    ensures variables { resolver.new.variables ≡ resolver.old.variables }
    ensures functions { resolver.new.functions ≡ resolver.old.functions }
{
    for place in 0..assignments.len() {
        resolver.add_variable(assignments[place].assignment.number, place)?;
    }
    Ok(())
}

fn add_functions<'src>(
    resolver: &mut VariableResolver<'src>,
    functions: &[FunctionRef<'_, 'src>],
) -> Result<(), AllocError>
    ensures functions { OnOk result ((name : List ℕ) → function_in resolver.new.functions name ≡ option_or (last_found (defined_if_named name) 0 (functions_in functions.entry.now)) (function_in resolver.old.functions name)) }
    ensures variables { resolver.new.variables ≡ resolver.old.variables }
    ensures numbers { resolver.new.numbers ≡ resolver.old.numbers }
{
    for place in 0..functions.len() {
        let definition = functions[place].definition;
        let function = DefinedFunction {
            place,
            parameters: definition.parameters.len(),
        };
        resolver.add_function(definition.name.lexeme(), function)?;
    }
    Ok(())
}

fn resolver_of<'src>(
    alloc: Global,
    lists: &ModuleLists<'src, '_>,
) -> Result<VariableResolver<'src>, AllocError>
    ensures { IfOk result (λ resolver. IsResolverOf (kept_in lists.now) resolver) }
{
    let mut resolver = VariableResolver::new(alloc, lists.assignments.len());
    add_variables(&mut resolver, lists.assignments.as_slice())?;
    add_functions(&mut resolver, lists.functions.as_slice())?;
    Ok(resolver)
}

fn read_variables<'src>(
    alloc: Global,
    resolver: &VariableResolver<'src>,
    assignments: &[AssignmentRef<'_, 'src>],
    graph: &mut Vec<Vec<usize>>,
) -> Result<(), ReadFault<'src>>
    ensures ok { OnOk result (rows_before (rows graph.old.items) (rows_of resolver.entry.now (right_sides (variables_in assignments.entry.now))) ≡ Ok (rows graph.new.items)) }
    ensures err { IfErr result (λ fault. fault ≢ OutOfMemory → rows_of resolver.entry.now (right_sides (variables_in assignments.entry.now)) ≡ Err fault) }
{
    for lent in assignments {
        match resolver.resolve_expression(alloc, &lent.assignment.value) {
            Ok(row) => graph.push(row)?,
            Err(fault) => return Err(fault),
        }
    }
    Ok(())
}

fn read_functions<'src>(
    alloc: Global,
    resolver: &VariableResolver<'src>,
    functions: &[FunctionRef<'_, 'src>],
    graph: &mut Vec<Vec<usize>>,
) -> Result<(), ReadFault<'src>>
    ensures ok { OnOk result (rows_before (rows graph.old.items) (rows_of resolver.entry.now (bodies (functions_in functions.entry.now))) ≡ Ok (rows graph.new.items)) }
    ensures err { IfErr result (λ fault. fault ≢ OutOfMemory → rows_of resolver.entry.now (bodies (functions_in functions.entry.now)) ≡ Err fault) }
{
    for lent in functions {
        match resolver.resolve_expression(alloc, &lent.definition.body) {
            Ok(row) => graph.push(row)?,
            Err(fault) => return Err(fault),
        }
    }
    Ok(())
}

fn graph_of<'src>(
    alloc: Global,
    resolver: &VariableResolver<'src>,
    lists: &ModuleLists<'src, '_>,
) -> Result<Vec<Vec<usize>>, ReadFault<'src>>
    ensures ok { IfOk result (λ graph. rows_of resolver.now (expressions_of (kept_in lists.now)) ≡ Ok (rows graph.items)) }
    ensures err { IfErr result (λ fault. fault ≢ OutOfMemory → rows_of resolver.now (expressions_of (kept_in lists.now)) ≡ Err fault) }
{
    let assignments = lists.assignments.as_slice();
    let functions = lists.functions.as_slice();
    let mut graph = Vec::new(alloc);
    if let Err(fault) = read_variables(alloc, resolver, assignments, &mut graph) {
        return Err(fault);
    }
    match read_functions(alloc, resolver, functions, &mut graph) {
        Ok(()) => Ok(graph),
        Err(fault) => Err(fault),
    }
}

/// Which of the variables are overridden.
fn overridden(
    alloc: Global,
    lists: &ModuleLists,
    overrides: &BTreeMap<Number, String>,
) -> Result<Vec<bool>, AllocError>
    ensures { IfOk result (λ flags. flags.items ≡ overridden_by overrides.now (variables_in lists.now.assignments.items)) }
{
    let mut flags = Vec::new(alloc);
    for lent in &lists.assignments {
        flags.push(overrides.contains_key(&lent.assignment.number))?;
    }
    Ok(flags)
}

/// What the module's variables and functions read. Refused where one of them reads a name that
/// stands for nothing or calls no function, or one with another number of parameters; and where
/// memory is.
pub fn reads_of<'src>(
    alloc: Global,
    lists: &ModuleLists<'src, '_>,
    overrides: &BTreeMap<Number, String>,
) -> Result<ModuleReads<'src>, ReadFault<'src>>
    ensures resolver { IfOk result (λ reads. IsResolverOf (kept_in lists.now) reads.resolver) }
    ensures graph { IfOk result (λ reads. rows_of reads.resolver (expressions_of (kept_in lists.now)) ≡ Ok (rows reads.graph.items)) }
    ensures overridden { IfOk result (λ reads. reads.overridden.items ≡ overridden_by overrides.now (variables_in lists.now.assignments.items)) }
    ensures refusal { IfErr result (λ fault. fault ≢ OutOfMemory → IsRefusal (kept_in lists.now) fault) }
{
    let resolver = resolver_of(alloc, lists)?;
    let overridden = overridden(alloc, lists, overrides)?;
    match graph_of(alloc, &resolver, lists) {
        Ok(graph) => Ok(ModuleReads {
            resolver,
            graph,
            overridden,
        }),
        Err(fault) => Err(fault),
    }
}

/// The places of the module's variables, each after those that it reads directly or through
/// functions. Refused where they read each other in a cycle, which is told by their places, the first
/// again at the end; and where memory runs out.
pub fn evaluation_order<'src>(
    alloc: Global,
    lists: &ModuleLists<'src, '_>,
    reads: &ModuleReads<'src>,
) -> Result<Vec<usize>, OrderFault>
    ensures order { IfOk result (λ places. IsVariableOrder (rows reads.now.graph.items) (length lists.now.assignments.items) places.items) }
    ensures reason { IfErr result (λ fault. IsReadReason (rows reads.now.graph.items) (length lists.now.assignments.items) fault) }
{
    variable_order(alloc, reads.graph.as_slice(), lists.assignments.len())
}

impl ModuleReads<'_> {
    /// For each variable and function whether the places read it, directly or through others. An
    /// overridden variable isn't looked into.
    pub fn reached(&self, alloc: Global, places: &[usize]) -> Result<Vec<Option<usize>>, AllocError>
        ensures { IfOk result (λ marks. AreReached (rows self.now.graph.items) self.now.overridden.items places.now marks.items) }
    {
        reached(
            alloc,
            self.graph.as_slice(),
            self.overridden.as_slice(),
            places,
        )
    }
}
