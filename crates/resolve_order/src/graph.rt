//! Graphs of places: what each place leads to, in order.
ghost use Rattle.std.specs.Prelude.{◌≡◌, ◌++◌, IfOk, OnOk, length};
ghost use Rattle.resolve_order.specs.Needs.{rows};
ghost use Rattle.resolve_order.specs.Flooded.{leads_of};

use std::alloc::{AllocError, Global};

/// The places that a place leads to.
pub(crate) fn leads(graph: &[Vec<usize>], place: usize) -> &[usize]
    ensures { result.now ≡ leads_of (rows graph.now) place }
{
    if place < graph.len() {
        graph[place].as_slice()
    } else {
        &[]
    }
}

/// How many places and leads there are, or the greatest number where there are more.
pub(crate) fn size(graph: &[Vec<usize>]) -> usize {
    let mut size = graph.len();
    for row in graph {
        size = size.saturating_add(row.len());
    }
    size
}

/// Puts the places on the stack.
pub(crate) fn push_all(stack: &mut Vec<usize>, places: &[usize]) -> Result<(), AllocError>
    ensures { OnOk result (stack.new.items ≡ stack.old.items ++ places.entry.now) }
{
    for place in places {
        stack.push(*place)?;
    }
    Ok(())
}

/// So many places, of which none leads anywhere.
pub(crate) fn empty_rows(alloc: Global, count: usize) -> Result<Vec<Vec<usize>>, AllocError>
    ensures { IfOk result (λ rows. length rows.items ≡ count) }
{
    let mut rows = Vec::new(alloc);
    for _ in 0..count {
        rows.push(Vec::new(alloc))?;
    }
    Ok(rows)
}
