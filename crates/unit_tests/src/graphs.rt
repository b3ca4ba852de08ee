//! Graphs of places.

use crate::orders::copied;
use resolve_order::{OrderFault, components, variable_order};
use std::alloc::{AllocError, Global};
use std::test::Fail;

/// For each place the first place of its component.
fn components_of(alloc: Global, rows: &[&[usize]]) -> Result<Vec<Option<usize>>, AllocError> {
    let graph = copied(alloc, rows)?;
    let marks = components(alloc, graph.as_slice())?;
    let mut firsts = Vec::new(alloc);
    for mark in &marks {
        firsts.push(marks.iter().position(|other| other == mark))?;
    }
    Ok(firsts)
}

fn are_components(alloc: Global, rows: &[&[usize]], want: &str) -> Result<bool, AllocError> {
    let firsts = components_of(alloc, rows)?;
    Ok(format!(in alloc; "{firsts:?}")?.as_str() == want)
}

#[test]
fn cycles_are_one_component(rt: HostRuntime) -> Result<(), Fail> {
    const ROWS: &[(&[&[usize]], &str)] = &[
        (&[], "[]"),
        (
            &[&[1], &[2, 3], &[0], &[4], &[3], &[5]],
            "[Some(0), Some(0), Some(0), Some(3), Some(3), Some(5)]",
        ),
    ];
    for (graph, want) in ROWS {
        assert!(rt; are_components(rt.alloc(), graph, want)?, "{want}");
    }
    Ok(())
}

/// The order of the variables, or their cycle, as it prints.
fn ordered(alloc: Global, rows: &[&[usize]], variables: usize) -> Result<String, AllocError> {
    let graph = copied(alloc, rows)?;
    match variable_order(alloc, graph.as_slice(), variables) {
        Ok(places) => format!(in alloc; "{places:?}"),
        Err(OrderFault::Cycle(places)) => format!(in alloc; "cycle {places:?}"),
        Err(OrderFault::OutOfMemory) => Err(AllocError),
    }
}

fn orders_to(
    alloc: Global,
    rows: &[&[usize]],
    variables: usize,
    want: &str,
) -> Result<bool, AllocError> {
    Ok(ordered(alloc, rows, variables)?.as_str() == want)
}

#[test]
fn functions_stand_between_variables(rt: HostRuntime) -> Result<(), Fail> {
    const ROWS: &[(&[&[usize]], usize, &str)] = &[
        // x, y, z; f calls g and reads y, g calls f and reads z
        (&[&[3], &[], &[], &[4, 1], &[3, 2]], 3, "[1, 2, 0]"),
        // f calls g, reads z and w; g calls f; z calls g
        (&[&[3], &[4], &[], &[4, 1, 2], &[3]], 3, "cycle [1, 1]"),
    ];
    for (graph, variables, want) in ROWS {
        assert!(rt; orders_to(rt.alloc(), graph, *variables, want)?, "{want}");
    }
    Ok(())
}
