//! Cycles of variables that read each other.
ghost use Rattle.std.specs.Prelude.{◌≡◌, ◌<◌, true, IfErr, IfOk, Contains, length};
ghost use Rattle.resolve_order.specs.Needs.{rows as rows_of};
ghost use Rattle.resolve_order.specs.Reads.{IsVariableOrder};
ghost use Rattle.resolve_order.specs.Flooded.{IsMarked, leads_of};
ghost use Rattle.resolve_order.specs.Cycles.{IsClosed, IsReadCycle, IsReadReason, ReachesStop, ReachNext};

use crate::fault::OrderFault;
use crate::flood::{is_stop, reached};
use crate::graph::leads;
use crate::read_rows::{exact_order, stops};
use std::alloc::{AllocError, Global};

/// Whether the place is marked.
fn is_marked(marks: &[Option<usize>], place: usize) -> bool
    ensures { result ≡ true → IsMarked marks.now place }
{
    place < marks.len() && marks[place].is_some()
}

/// Whether the one place leads to the other, and the other is there.
fn leads_to(graph: &[Vec<usize>], place: usize, other: usize) -> bool
    ensures listed { result ≡ true → Contains (leads_of (rows_of graph.now) place) other }
    ensures there { result ≡ true → other < length graph.now }
{
    other < graph.len() && leads(graph, place).contains(&other)
}

/// Whether the stop can be reached from the place by one lead or more, through no stop.
fn reaches_stop(
    alloc: Global,
    graph: &[Vec<usize>],
    stops: &[bool],
    place: usize,
    stop: usize,
) -> Result<bool, AllocError>
    ensures { IfOk result (λ reaches. reaches ≡ true → ReachesStop (rows_of graph.now) stops.now place stop) }
{
    if !is_stop(stops, stop) {
        return Ok(false);
    }
    if leads_to(graph, place, stop) {
        return Ok(true);
    }
    let marks = reached(alloc, graph, stops, leads(graph, place))?;
    Ok(is_marked(marks.as_slice(), stop))
}

/// Whether each of the places but the first is a stop that can be reached from the one before it.
fn each_reaches_next(
    alloc: Global,
    graph: &[Vec<usize>],
    stops: &[bool],
    places: &[usize],
) -> Result<bool, AllocError>
    ensures { IfOk result (λ reach. reach ≡ true → ReachNext (rows_of graph.now) stops.now places.now (length places.now)) }
{
    for at in 1..places.len() {
        if !reaches_stop(alloc, graph, stops, places[at - 1], places[at])? {
            return Ok(false);
        }
    }
    Ok(true)
}

/// Whether there are two places or more, and the last is the first again.
fn is_closed(places: &[usize]) -> bool
    ensures { result ≡ true → IsClosed places.now }
{
    places.len() > 1 && places[0] == places[places.len() - 1]
}

/// Whether the places are variables of which each reads the next one, and the last is the first again.
fn is_read_cycle(
    alloc: Global,
    graph: &[Vec<usize>],
    variables: usize,
    places: &[usize],
) -> Result<bool, AllocError>
    ensures { IfOk result (λ is. is ≡ true → IsReadCycle (rows_of graph.now) variables places.now) }
{
    if !is_closed(places) {
        return Ok(false);
    }
    let stops = stops(alloc, variables)?;
    each_reaches_next(alloc, graph, stops.as_slice(), places)
}

/// Refuses the cycle, if it is one of variables that read each other. Else the variables in order, each
/// after all that it reads directly or through functions; refused as that is.
pub(crate) fn refuse_cycle(
    alloc: Global,
    graph: &[Vec<usize>],
    variables: usize,
    places: Vec<usize>,
) -> Result<Vec<usize>, OrderFault>
    ensures order { IfOk result (λ places. IsVariableOrder (rows_of graph.now) variables places.items) }
    ensures reason { IfErr result (λ fault. IsReadReason (rows_of graph.now) variables fault) }
{
    if is_read_cycle(alloc, graph, variables, places.as_slice())? {
        return Err(OrderFault::Cycle(places));
    }
    exact_order(alloc, graph, variables)
}
