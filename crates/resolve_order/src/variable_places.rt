//! Variables in an order in which each stands after all that it reads.
ghost use Rattle.std.specs.Prelude.{◌≡◌, ◌<◌, ◌≤◌, ℕ, Some, IfOk, IfErr, OnOk, Contains, length, slice_get, nat_lt};
ghost use Rattle.std.specs.List.{filter};
ghost use Rattle.resolve_order.specs.Needs.{rows as rows_of};
ghost use Rattle.resolve_order.specs.Contracted.{AreRepresentatives, Grows, Leads, IsContracted, IsContraction};
ghost use Rattle.resolve_order.specs.Reads.{IsVariableOrder};
ghost use Rattle.resolve_order.specs.Cycles.{IsReadReason};
ghost use Rattle.resolve_order.specs.declared.fault.OrderFault.TheVariants.{OutOfMemory};

use crate::component_search::components;
use crate::fault::OrderFault;
use crate::graph::empty_rows;
use crate::ordered::order;
use crate::read_cycles::refuse_cycle;
use std::alloc::{AllocError, Global};

/// The rows of the functions alone, by their own places.
fn function_graph(
    alloc: Global,
    graph: &[Vec<usize>],
    variables: usize,
) -> Result<Vec<Vec<usize>>, AllocError> {
    let mut rows = Vec::new(alloc);
    for place in variables..graph.len() {
        rows.push(called(alloc, graph[place].as_slice(), variables)?)?;
    }
    Ok(rows)
}

/// The functions among these places, by their own places.
fn called(alloc: Global, row: &[usize], variables: usize) -> Result<Vec<usize>, AllocError> {
    let mut functions = Vec::new(alloc);
    for place in row {
        if *place >= variables {
            functions.push(*place - variables)?;
        }
    }
    Ok(functions)
}

/// The representative of the place, one of so many: a variable itself, and of a function its component.
fn representative_at(
    components: &[Option<usize>],
    variables: usize,
    many: usize,
    place: usize,
) -> usize
    requires { place < many }
    ensures within { result < many }
    ensures variable { place < variables → result ≡ place }
    ensures function { variables ≤ place → variables ≤ result }
{
    if place < variables {
        return place;
    }
    match components.get(place - variables) {
        Some(Some(component)) if *component < many - variables => *component + variables,
        _ => place,
    }
}

/// The representative of each of so many places.
fn representatives(
    alloc: Global,
    components: &[Option<usize>],
    variables: usize,
    many: usize,
) -> Result<Vec<usize>, AllocError>
    ensures { IfOk result (λ representatives. AreRepresentatives variables many many representatives.items) }
{
    let mut representatives = Vec::new(alloc);
    for place in 0..many {
        representatives.push(representative_at(components, variables, many, place))?;
    }
    Ok(representatives)
}

/// Puts the place into the row, unless both are one function.
fn add_lead(
    rows: &mut [Vec<usize>],
    variables: usize,
    own: usize,
    found: usize,
) -> Result<(), AllocError>
    requires own { own < length rows.old }
    requires found { found < length rows.old }
    ensures grows { OnOk result (Grows (rows_of rows.old) (rows_of rows.new)) }
    ensures leads { OnOk result (Leads variables (rows_of rows.new) own found) }
{
    if found != own || own < variables {
        rows[own].push(found)?;
    }
    Ok(())
}

/// Puts the place's representative into the row, if it is there.
fn add_read(
    rows: &mut [Vec<usize>],
    representatives: &[usize],
    variables: usize,
    own: usize,
    read: usize,
) -> Result<(), AllocError>
    requires own { own < length rows.old }
    requires representatives { AreRepresentatives variables (length rows.old) (length rows.old) representatives.now }
    ensures grows { OnOk result (Grows (rows_of rows.old) (rows_of rows.new)) }
    ensures led { OnOk result ((found : ℕ) → slice_get representatives.entry.now read ≡ Some found → Leads variables (rows_of rows.new) own found) }
{
    if read >= representatives.len() {
        return Ok(());
    }
    add_lead(rows, variables, own, representatives[read])
}

/// Puts the representatives of the places into the row of the representative that leads to them.
fn add_row(
    rows: &mut [Vec<usize>],
    representatives: &[usize],
    variables: usize,
    own: usize,
    places: &[usize],
) -> Result<(), AllocError>
    requires own { own < length rows.old }
    requires representatives { AreRepresentatives variables (length rows.old) (length rows.old) representatives.now }
    ensures grows { OnOk result (Grows (rows_of rows.old) (rows_of rows.new)) }
    ensures leads { OnOk result ((read found : ℕ) → Contains places.entry.now read → slice_get representatives.entry.now read ≡ Some found → Leads variables (rows_of rows.new) own found) }
{
    for read in places {
        add_read(rows, representatives, variables, own, *read)?;
    }
    Ok(())
}

/// Puts into each representative's row the representatives of what its places lead to.
fn add_rows(
    rows: &mut [Vec<usize>],
    graph: &[Vec<usize>],
    variables: usize,
    representatives: &[usize],
) -> Result<(), AllocError>
    requires many { length rows.old ≡ length graph.now }
    requires representatives { AreRepresentatives variables (length graph.now) (length graph.now) representatives.now }
    ensures { OnOk result (IsContracted (rows_of graph.entry.now) variables representatives.entry.now (length graph.entry.now) (rows_of rows.new)) }
{
    for place in 0..graph.len() {
        add_row(
            rows,
            representatives,
            variables,
            representatives[place],
            graph[place].as_slice(),
        )?;
    }
    Ok(())
}

/// The graph with its representative in place of each function.
fn rows_over(
    alloc: Global,
    graph: &[Vec<usize>],
    variables: usize,
    representatives: &[usize],
) -> Result<Vec<Vec<usize>>, AllocError>
    requires { AreRepresentatives variables (length graph.now) (length graph.now) representatives.now }
    ensures { IfOk result (λ rows. IsContracted (rows_of graph.now) variables representatives.now (length graph.now) (rows_of rows.items)) }
{
    let mut rows = empty_rows(alloc, graph.len())?;
    add_rows(&mut rows, graph, variables, representatives)?;
    Ok(rows)
}

/// The graph with one function in place of all that call each other.
fn contracted(
    alloc: Global,
    graph: &[Vec<usize>],
    variables: usize,
) -> Result<Vec<Vec<usize>>, AllocError>
    ensures { IfOk result (λ rows. IsContraction (rows_of graph.now) variables (rows_of rows.items)) }
{
    let functions = function_graph(alloc, graph, variables)?;
    let components = components(alloc, &functions)?;
    let representatives = representatives(alloc, &components, variables, graph.len())?;
    rows_over(alloc, graph, variables, &representatives)
}

/// The places below this one, in their order.
fn below(alloc: Global, places: &[usize], variables: usize) -> Result<Vec<usize>, AllocError>
    ensures { IfOk result (λ kept. kept.items ≡ filter (λ place. nat_lt place variables) places.now) }
{
    let mut kept = Vec::new(alloc);
    for place in places {
        if *place < variables {
            kept.push(*place)?;
        }
    }
    Ok(kept)
}

/// The variables of an order, in their order.
fn in_order(alloc: Global, places: &[usize], variables: usize) -> Result<Vec<usize>, OrderFault>
    ensures kept { IfOk result (λ kept. kept.items ≡ filter (λ place. nat_lt place variables) places.now) }
    ensures memory { IfErr result (λ fault. fault ≡ OutOfMemory) }
{
    let kept = below(alloc, places, variables)?;
    Ok(kept)
}

/// The variables of a closed walk, closed again where the walk begins with a function.
fn cycle(alloc: Global, walk: &[usize], variables: usize) -> Result<Vec<usize>, AllocError> {
    let mut places = below(alloc, walk, variables)?;
    if let (Some(first), Some(begin)) = (places.first().copied(), walk.first()) {
        if *begin >= variables {
            places.push(first)?;
        }
    }
    Ok(places)
}

/// The places of the variables of a graph, each after all that it reads directly or through
/// functions. So many places are variables, and those after them functions. What stands first comes
/// as early as it can. Functions may call each other in a cycle.
///
/// Refused where variables read one another in a cycle, with their places, the first again at the end;
/// and where memory runs out. Linear in places and leads where there is an order.
pub fn variable_order(
    alloc: Global,
    graph: &[Vec<usize>],
    variables: usize,
) -> Result<Vec<usize>, OrderFault>
    ensures order { IfOk result (λ places. IsVariableOrder (rows_of graph.now) variables places.items) }
    ensures reason { IfErr result (λ fault. IsReadReason (rows_of graph.now) variables fault) }
{
    let rows = contracted(alloc, graph, variables)?;
    match order(alloc, &rows) {
        Ok(places) => in_order(alloc, places.as_slice(), variables),
        Err(OrderFault::Cycle(walk)) => {
            refuse_cycle(
                alloc,
                graph,
                variables,
                cycle(alloc, walk.as_slice(), variables)?,
            )
        }
        Err(OrderFault::OutOfMemory) => Err(OrderFault::OutOfMemory),
    }
}
