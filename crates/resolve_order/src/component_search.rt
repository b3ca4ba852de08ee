//! Which places of a graph reach each other.
use crate::flood::flood;
use crate::graph::{empty_rows, leads, size};
use std::alloc::{AllocError, Global};

/// What a search has to do.
#[derive(Clone, Copy, Debug)]
enum Step {
    Enter(usize),
    Leave(usize),
}

/// A search that goes into each place once, and into all that a place leads to before it leaves it.
#[derive(Drop)]
struct Search {
    entered: Vec<bool>,
    left: Vec<usize>,
    /// The next step last.
    steps: Vec<Step>,
}

/// Marks the place as entered, if it is there and isn't yet.
fn enters(entered: &mut [bool], place: usize) -> bool {
    if place >= entered.len() || entered[place] {
        return false;
    }
    entered[place] = true;
    true
}

/// Puts steps into these places there, the first of them last.
fn push_enters(steps: &mut Vec<Step>, places: &[usize]) -> Result<(), AllocError> {
    for place in places.iter().rev() {
        steps.push(Step::Enter(*place))?;
    }
    Ok(())
}

impl Search {
    fn enter(&mut self, graph: &[Vec<usize>], place: usize) -> Result<(), AllocError> {
        if enters(&mut self.entered, place) {
            self.steps.push(Step::Leave(place))?;
            push_enters(&mut self.steps, leads(graph, place))?;
        }
        Ok(())
    }

    /// Takes the next step, if there is one.
    fn turn(&mut self, graph: &[Vec<usize>]) -> Result<(), AllocError> {
        match self.steps.pop() {
            Some(Step::Enter(place)) => self.enter(graph, place),
            Some(Step::Leave(place)) => {
                self.left.push(place)?;
                Ok(())
            }
            None => Ok(()),
        }
    }

    /// Takes all steps, of which there are at most so many.
    fn run(&mut self, graph: &[Vec<usize>], most: usize) -> Result<(), AllocError> {
        for _ in 0..most {
            if self.steps.is_empty() {
                return Ok(());
            }
            self.turn(graph)?;
        }
        Ok(())
    }

    fn enter_all(&mut self, count: usize) -> Result<(), AllocError> {
        for place in (0..count).rev() {
            self.steps.push(Step::Enter(place))?;
        }
        Ok(())
    }
}

fn search_all(search: &mut Search, graph: &[Vec<usize>]) -> Result<(), AllocError> {
    search.enter_all(graph.len())?;
    let most = size(graph).saturating_add(graph.len());
    search.run(graph, most)
}

/// The places in the order in which a search leaves them.
fn leaving_order(alloc: Global, graph: &[Vec<usize>]) -> Result<Vec<usize>, AllocError> {
    let mut search = Search {
        entered: vec![in alloc; false; graph.len()]?,
        left: Vec::new(alloc),
        steps: Vec::new(alloc),
    };
    search_all(&mut search, graph)?;
    let Search {
        entered: _,
        left,
        steps: _,
    } = search;
    Ok(left)
}

/// Puts the place after what leads to each of these.
fn turn_row(rows: &mut [Vec<usize>], leads: &[usize], place: usize) -> Result<(), AllocError> {
    for lead in leads {
        if *lead < rows.len() {
            rows[*lead].push(place)?;
        }
    }
    Ok(())
}

/// The graph with each lead turned round.
fn turned(alloc: Global, graph: &[Vec<usize>]) -> Result<Vec<Vec<usize>>, AllocError> {
    let mut rows = empty_rows(alloc, graph.len())?;
    for place in 0..graph.len() {
        turn_row(&mut rows, leads(graph, place), place)?;
    }
    Ok(rows)
}

/// Marks with its own number each place that has no mark when it comes, and what it reaches.
fn mark_all(
    alloc: Global,
    graph: &[Vec<usize>],
    order: &[usize],
    marks: &mut [Option<usize>],
) -> Result<(), AllocError> {
    let mut stack = Vec::new(alloc);
    for place in order.iter().rev() {
        stack.push(*place)?;
        flood(graph, &[], marks, &mut stack, *place)?;
    }
    Ok(())
}

/// For each place of the graph a representative of all places which it reaches and which reach it: the
/// same for all of them, and one of them. Linear in places and leads. Refused only where memory runs
/// out.
pub fn components(alloc: Global, graph: &[Vec<usize>]) -> Result<Vec<Option<usize>>, AllocError> {
    let order = leaving_order(alloc, graph)?;
    let back = turned(alloc, graph)?;
    let mut marks = vec![in alloc; None; graph.len()]?;
    mark_all(alloc, &back, &order, &mut marks)?;
    Ok(marks)
}
