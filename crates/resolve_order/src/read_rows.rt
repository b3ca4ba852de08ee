//! The variables that each variable reads, and an order by these.
ghost use Rattle.std.specs.Prelude.{◌≡◌, ◌<◌, IfErr, IfOk, OnOk, length, min};
ghost use Rattle.resolve_order.specs.Needs.{rows as rows_of};
ghost use Rattle.resolve_order.specs.Reads.{IsVariableOrder};
ghost use Rattle.resolve_order.specs.Cycles.{AreReadRows, AreStops, IsAdded, IsMarkedRow, IsReadReason, IsReadRow};

use crate::fault::OrderFault;
use crate::flood::reached;
use crate::graph::leads;
use crate::ordered::order;
use std::alloc::{AllocError, Global};

/// Puts the place into the row, if it is marked.
fn add_marked(row: &mut Vec<usize>, marks: &[Option<usize>], place: usize) -> Result<(), AllocError>
    requires { place < length marks.now }
    ensures { OnOk result (IsAdded marks.entry.now place row.old.items row.new.items) }
{
    match marks[place] {
        None => Ok(()),
        Some(_) => {
            row.push(place)?;
            Ok(())
        }
    }
}

/// The variables that are marked.
fn marked_variables(
    alloc: Global,
    marks: &[Option<usize>],
    variables: usize,
) -> Result<Vec<usize>, AllocError>
    ensures { IfOk result (λ row. IsMarkedRow marks.now variables row.items) }
{
    let mut row = Vec::new(alloc);
    for place in 0..variables.min(marks.len()) {
        add_marked(&mut row, marks, place)?;
    }
    Ok(row)
}

/// The variables that the place reads, directly or through functions.
fn read_row(
    alloc: Global,
    graph: &[Vec<usize>],
    stops: &[bool],
    variables: usize,
    place: usize,
) -> Result<Vec<usize>, AllocError>
    requires { AreStops variables stops.now }
    ensures { IfOk result (λ row. IsReadRow (rows_of graph.now) variables place row.items) }
{
    let marks = reached(alloc, graph, stops, leads(graph, place))?;
    marked_variables(alloc, marks.as_slice(), variables)
}

/// The variables that each variable reads.
fn read_rows(
    alloc: Global,
    graph: &[Vec<usize>],
    stops: &[bool],
    variables: usize,
) -> Result<Vec<Vec<usize>>, AllocError>
    requires { AreStops variables stops.now }
    ensures { IfOk result (λ rows. AreReadRows (rows_of graph.now) variables (min variables (length graph.now)) (rows_of rows.items)) }
{
    let mut rows = Vec::new(alloc);
    for place in 0..variables.min(graph.len()) {
        rows.push(read_row(alloc, graph, stops, variables, place)?)?;
    }
    Ok(rows)
}

/// Stops at the variables.
pub(crate) fn stops(alloc: Global, variables: usize) -> Result<Vec<bool>, AllocError>
    ensures { IfOk result (λ stops. AreStops variables stops.items) }
{
    let stops = vec![in alloc; true; variables]?;
    Ok(stops)
}

/// The variables in order, each after all that it reads directly or through functions. Refused where
/// they read one another in a cycle, and where memory runs out. For each variable it looks at all
/// functions that the variable calls, directly or through others.
pub(crate) fn exact_order(
    alloc: Global,
    graph: &[Vec<usize>],
    variables: usize,
) -> Result<Vec<usize>, OrderFault>
    ensures order { IfOk result (λ places. IsVariableOrder (rows_of graph.now) variables places.items) }
    ensures reason { IfErr result (λ fault. IsReadReason (rows_of graph.now) variables fault) }
{
    let stops = stops(alloc, variables)?;
    let rows = read_rows(alloc, graph, stops.as_slice(), variables)?;
    order(alloc, rows.as_slice())
}
