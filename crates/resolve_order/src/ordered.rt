//! Things in order.
ghost use Rattle.std.specs.Prelude.{◌≡◌, List, ℕ, IfErr, IfOk, OnOk};
ghost use Rattle.resolve_order.specs.Needs.{IsCycle, rows};
ghost use Rattle.resolve_order.specs.Order.{IsOrder, IsReason};

use crate::fault::OrderFault;
use crate::search::Search;
use std::alloc::Global;

/// Puts things into an order in which each stands after all that it needs. A thing is known by its
/// place among `needs`, where the places of what it needs stand; a place at which there is nothing
/// counts for nothing. What stands first comes as early as it can.
///
/// Refused where things need one another in a cycle, with the first that is met, and where memory
/// runs out. The turns are in proportion to the things and their needs, and a long chain takes no
/// more of the machine's stack.
pub fn order(alloc: Global, needs: &[Vec<usize>]) -> Result<Vec<usize>, OrderFault>
    ensures order { IfOk result (λ places. IsOrder (rows needs.now) places.items) }
    ensures no_cycle { OnOk result ((places : List ℕ) → IsCycle (rows needs.now) places → ⊥) }
    ensures reason { IfErr result (λ fault. IsReason (rows needs.now) fault) }
{
    let mut search = Search::new(alloc, needs)?;
    for place in 0..needs.len() {
        search.visit(alloc, needs, place)?;
    }
    Ok(search.into_order())
}
