//! The ancestors of objects that long paths lead to, so that no path is walked over the steps that it leaves out.
ghost use Rattle.path_cert.specs.Ancestors.{AreAncestors, AncestorOf};
ghost use Rattle.std.specs.Prelude.{◌≡◌, ◌<◌, length, IfOk, None, slice_index_or};

use crate::arrival::Arrival;
use graph_meaning::ByCell;
use heap_base::{END_STEPS, OutOfMemory};
use std::alloc::Global;

/// The canonical path to an object beyond this level goes by an object of this level: its ancestor. The first steps that a path shows lead to
/// the ancestor or end before it.
pub(crate) const ANCESTOR_LEVEL: u32 = END_STEPS + 1;

/// For each cell the cell of its object's ancestor, and `None` where the object is of a lower level; by how canonical paths arrive, and by the
/// order in which objects got their levels. Where no path leaves steps out, nothing is kept.
pub(crate) fn ancestors_of(
    alloc: Global,
    arrivals: &ByCell<Arrival>,
    order: &[u32],
) -> Result<Vec<Option<u32>>, OutOfMemory>
    ensures { IfOk result (λ ancestors. AreAncestors arrivals.now ancestors.items) }
{
    if !has_long_path(arrivals, order) {
        return Ok(Vec::new(alloc));
    }
    let mut ancestors = vec![in alloc; None; arrivals.cells() as usize]?;
    for cell in order {
        if *cell < arrivals.cells() {
            ancestors[*cell as usize] = ancestor_of(arrivals, ancestors.as_slice(), *cell);
        }
    }
    Ok(ancestors)
}

// Whether a path to one of these objects, which stand by their levels, leaves steps out.
fn has_long_path(arrivals: &ByCell<Arrival>, order: &[u32]) -> bool {
    match order.last() {
        Some(last) if *last < arrivals.cells() => arrivals.get(*last).level > 2 * END_STEPS,
        _ => false,
    }
}

// The ancestor of the object in a cell, where that of the object before it on its path is known.
fn ancestor_of(arrivals: &ByCell<Arrival>, ancestors: &[Option<u32>], cell: u32) -> Option<u32>
    requires { cell < length arrivals.now }
    ensures { AreAncestors arrivals.now ancestors.now → AncestorOf arrivals.now cell result }
{
    let arrival = arrivals.get(cell);
    if arrival.level > ANCESTOR_LEVEL {
        known_ancestor(ancestors, arrival.from)
    } else if arrival.level == ANCESTOR_LEVEL {
        Some(cell)
    } else {
        None
    }
}

/// The ancestor that is known for a cell, if one is.
pub(crate) fn known_ancestor(ancestors: &[Option<u32>], cell: u32) -> Option<u32>
    ensures { result ≡ slice_index_or ancestors.now cell None }
{
    match ancestors.get(cell as usize) {
        Some(ancestor) => *ancestor,
        None => None,
    }
}
