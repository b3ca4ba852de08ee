//! Which functions are called, directly or through functions, and whether the flag of dependencies is
//! asked for.
ghost use Rattle.std.specs.Prelude.{◌≡◌, ◌++◌, ◌∷◌, [], ◌↔◌, ℕ, true, map, slice_get, Some, IfOk, OnOk};
ghost use Rattle.std.specs.List.{list_any};
ghost use Rattle.resolve_order.specs.Flooded.{IsMarked, Reaches};
ghost use Rattle.resolve_order.specs.Needs.{rows};
ghost use Rattle.justfile_analyzer.specs.Calls as spec;
ghost use Rattle.justfile_analyzer.specs.Steady.{AsksAmong};

use evaluate_context::FunctionRef;
use resolve_order::reached;
use resolve_references::{Reference, References};
use std::alloc::{AllocError, Global};

/// The built-in function that tells dependencies apart.
const ASKING: &str = "is_dependency";

/// The place of the first function of this name.
fn place_of(functions: &[FunctionRef], name: &str) -> Option<usize>
    ensures { result ≡ spec.place_named name.now functions.now }
{
    for (place, function) in functions.iter().enumerate() {
        if function.definition.name.lexeme() == name {
            return Some(place);
        }
    }
    None
}

/// The place of the function that is called there, if it is one of these.
fn called(functions: &[FunctionRef], reference: &Reference) -> Option<usize>
    ensures { result ≡ spec.called_at functions.now reference.now }
{
    match reference {
        Reference::Call { name, .. } => place_of(functions, name.lexeme()),
        Reference::Variable { .. } => None,
    }
}

/// Whether the built-in function of the flag is called there.
fn asks_there(functions: &[FunctionRef], reference: &Reference) -> bool
    ensures { result ≡ spec.asks_at functions.now reference.now }
{
    match reference {
        Reference::Call { name, .. } => {
            let name = name.lexeme();
            name == ASKING && place_of(functions, name).is_none()
        }
        Reference::Variable { .. } => false,
    }
}

/// The places of the functions that are called there.
fn all_called(
    alloc: Global,
    functions: &[FunctionRef],
    references: &[Reference],
) -> Result<Vec<usize>, AllocError>
    ensures { IfOk result (λ places. places.items ≡ spec.all_called functions.now references.now) }
{
    let mut places = Vec::new(alloc);
    for reference in references {
        if let Some(place) = called(functions, reference) {
            places.push(place)?;
        }
    }
    Ok(places)
}

/// Whether the flag is asked for there.
fn any_asks_there(functions: &[FunctionRef], references: &[Reference]) -> bool
    ensures { result ≡ list_any (spec.asks_at functions.now) references.now }
{
    for reference in references {
        if asks_there(functions, reference) {
            return true;
        }
    }
    false
}

/// Adds what the function calls, and whether it asks for the flag.
fn add_function(
    alloc: Global,
    functions: &[FunctionRef],
    function: FunctionRef,
    graph: &mut Vec<Vec<usize>>,
    asks: &mut Vec<bool>,
) -> Result<(), AllocError>
    ensures calls { OnOk result (rows graph.new.items ≡ rows graph.old.items ++ spec.called_by functions.entry.now function.entry ∷ []) }
    ensures asking { OnOk result (asks.new.items ≡ asks.old.items ++ spec.asks_in functions.entry.now function.entry ∷ []) }
{
    let references = References::of(alloc, &function.definition.body)?;
    asks.push(any_asks_there(functions, references.as_slice()))?;
    graph.push(all_called(alloc, functions, references.as_slice())?)?;
    Ok(())
}

/// Adds what each function calls, and whether it asks for the flag.
fn add_functions(
    alloc: Global,
    functions: &[FunctionRef],
    graph: &mut Vec<Vec<usize>>,
    asks: &mut Vec<bool>,
) -> Result<(), AllocError>
    ensures calls { OnOk result (rows graph.new.items ≡ rows graph.old.items ++ map (spec.called_by functions.entry.now) functions.entry.now) }
    ensures asking { OnOk result (asks.new.items ≡ asks.old.items ++ map (spec.asks_in functions.entry.now) functions.entry.now) }
{
    for function in functions {
        add_function(alloc, functions, *function, graph, asks)?;
    }
    Ok(())
}

/// Whether a function that is reached asks for the flag.
fn any_reached_asks(asks: &[bool], marks: &[Option<usize>]) -> bool
    ensures { (result ≡ true) ↔ ((place : ℕ) × (slice_get asks.now place ≡ Some true) × IsMarked marks.now place) }
{
    for place in 0..asks.len().min(marks.len()) {
        if asks[place] && marks[place].is_some() {
            return true;
        }
    }
    false
}

/// Whether a function that is called from these asks for the flag, they too.
fn functions_ask(
    alloc: Global,
    functions: &[FunctionRef],
    roots: &[usize],
) -> Result<bool, AllocError>
    ensures { IfOk result (λ asks. (asks ≡ true) ↔ spec.OneAsks functions.now roots.now) }
{
    let mut graph = Vec::new(alloc);
    let mut asks = Vec::new(alloc);
    add_functions(alloc, functions, &mut graph, &mut asks)?;
    let marks = reached(alloc, graph.as_slice(), &[], roots)?;
    Ok(any_reached_asks(asks.as_slice(), marks.as_slice()))
}

/// Whether the flag of dependencies is asked for in these expressions, or in a function that is called
/// from there through any chain of calls. A name calls the first function of that name. Refused only
/// where memory runs out.
pub(crate) fn references_ask(
    alloc: Global,
    functions: &[FunctionRef],
    references: &[Reference],
) -> Result<bool, AllocError>
    ensures { IfOk result (λ asks. (asks ≡ true) ↔ AsksAmong functions.now references.now) }
{
    if any_asks_there(functions, references) {
        return Ok(true);
    }
    let roots = all_called(alloc, functions, references)?;
    functions_ask(alloc, functions, roots.as_slice())
}
