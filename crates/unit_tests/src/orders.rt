//! Orders of things by what they need.

use resolve_order::order;
use std::alloc::{AllocError, Global};
use std::test::Fail;

/// The lists, each copied.
pub(crate) fn copied(alloc: Global, rows: &[&[usize]]) -> Result<Vec<Vec<usize>>, AllocError> {
    let mut needs = Vec::new(alloc);
    for row in rows {
        needs.push(row.to_vec(alloc)?)?;
    }
    Ok(needs)
}

/// The order, or the cycle, as it prints.
fn ordered(alloc: Global, rows: &[&[usize]]) -> Result<String, AllocError> {
    let needs = copied(alloc, rows)?;
    match order(alloc, needs.as_slice()) {
        Ok(places) => format!(in alloc; "{places:?}"),
        Err(fault) => format!(in alloc; "{fault:?}"),
    }
}

fn orders_to(alloc: Global, rows: &[&[usize]], want: &str) -> Result<bool, AllocError> {
    Ok(ordered(alloc, rows)?.as_str() == want)
}

#[test]
fn needs_come_first(rt: HostRuntime) -> Result<(), Fail> {
    const ROWS: &[(&[&[usize]], &str)] = &[
        (&[], "[]"),
        (&[&[1, 2], &[2], &[]], "[2, 1, 0]"),
        (&[&[], &[0], &[7]], "[0, 1, 2]"),
        (&[&[0]], "Cycle([0, 0])"),
        (&[&[1], &[2], &[1]], "Cycle([1, 2, 1])"),
    ];
    for (needs, want) in ROWS {
        assert!(rt; orders_to(rt.alloc(), needs, want)?, "{want}");
    }
    Ok(())
}
