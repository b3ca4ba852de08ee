//! What can be reached in a graph.
ghost use Rattle.std.specs.Prelude.{◌≡◌, ◌++◌, ◌∷◌, [], IfOk, OnOk, Some, None, length, slice_get};
ghost use Rattle.resolve_order.specs.Needs.{rows};
ghost use Rattle.resolve_order.specs.Flooded.{Takes, is_stop, followed, Turn, IsFlooded, AreReached, AreUnmarked};

use crate::graph::{leads, push_all};
use std::alloc::{AllocError, Global};

/// Gives the place this mark, if it is there and has none.
fn takes(marks: &mut [Option<usize>], place: usize, mark: usize) -> bool
    ensures { Takes marks.old place mark result marks.new }
{
    if place >= marks.len() || marks[place].is_some() {
        return false;
    }
    marks[place] = Some(mark);
    true
}

/// Whether the place is a stop.
pub(crate) fn is_stop(stops: &[bool], place: usize) -> bool
    ensures { result ≡ is_stop stops.now place }
{
    place < stops.len() && stops[place]
}

/// What the place leads to, unless it is a stop.
fn followed<'g>(graph: &'g [Vec<usize>], stops: &[bool], place: usize) -> &'g [usize]
    ensures { result.now ≡ followed (rows graph.now) stops.now place }
{
    if is_stop(stops, place) {
        return &[];
    }
    leads(graph, place)
}

/// Gives the mark to the place, if it has none, and puts those that it leads to on the stack, unless it
/// is a stop.
fn visit(
    graph: &[Vec<usize>],
    stops: &[bool],
    marks: &mut [Option<usize>],
    stack: &mut Vec<usize>,
    mark: usize,
    place: usize,
) -> Result<(), AllocError>
    ensures { OnOk result (Turn (rows graph.entry.now) stops.entry.now mark place marks.old stack.old.items marks.new stack.new.items) }
{
    if !takes(marks, place, mark) {
        return Ok(());
    }
    push_all(stack, followed(graph, stops, place))
}

/// Marks what can be reached from what lies on the stack without a marked place between.
pub(crate) fn flood(
    graph: &[Vec<usize>],
    stops: &[bool],
    marks: &mut [Option<usize>],
    stack: &mut Vec<usize>,
    mark: usize,
) -> Result<(), AllocError>
    ensures { OnOk result (IsFlooded (rows graph.entry.now) stops.entry.now stack.old.items marks.old marks.new []) }
{
    while let Some(place) = stack.pop() {
        visit(graph, stops, marks, stack, mark, place)?;
    }
    Ok(())
}

/// So many places, none of which is marked.
fn unmarked(alloc: Global, count: usize) -> Result<Vec<Option<usize>>, AllocError>
    ensures { IfOk result (λ marks. AreUnmarked count marks.items) }
{
    let marks = vec![in alloc; None; count]?;
    Ok(marks)
}

/// The places with a mark where they are reached.
fn flooded(
    graph: &[Vec<usize>],
    stops: &[bool],
    marks: Vec<Option<usize>>,
    stack: Vec<usize>,
) -> Result<Vec<Option<usize>>, AllocError>
    requires { AreUnmarked (length graph.now) marks.items }
    ensures { IfOk result (λ marks. AreReached (rows graph.now) stops.now stack.items marks.items) }
{
    let mut marks = marks;
    let mut stack = stack;
    flood(graph, stops, &mut marks, &mut stack, 0)?;
    Ok(marks)
}

/// Whether each place of the graph can be reached from one of the roots, themselves included. From a
/// stop one goes no further. Refused only where memory runs out.
pub fn reached(
    alloc: Global,
    graph: &[Vec<usize>],
    stops: &[bool],
    roots: &[usize],
) -> Result<Vec<Option<usize>>, AllocError>
    ensures { IfOk result (λ marks. AreReached (rows graph.now) stops.now roots.now marks.items) }
{
    let marks = unmarked(alloc, graph.len())?;
    let stack = roots.to_vec(alloc)?;
    flooded(graph, stops, marks, stack)
}
