//! How headers and their passes are made.
ghost use Rattle.std.specs.Prelude.{◌≡◌, ◌+◌, ◌-◌, ◌<◌, ◌≤◌, [], length, map, IfOk, OnOk};
ghost use Rattle.std.specs.List.{All, range_with_len};
ghost use Rattle.heap_base.specs.declared.limits.TheConstants.{MOST_WORKERS};
ghost use Rattle.header_rule.specs.Rule.{new_view};
ghost use Rattle.header_rule.specs.Passes.{IsSeated, IsFresh, ArePassesOf, AreNew, numbers};

use crate::headers::Headers;
use crate::own_words::OwnWords;
use crate::pass::Pass;
use crate::reach::Reach;
use crate::shared_words::{HeaderTable, SharedWords};
use crate::steps::{FirstSeat, OneRight};
use crate::view::View;
use atomic_table::Seat;
use heap_base::OutOfMemory;
use std::alloc::Global;

/// How many meets a pass has. Those of 16 passes together stay below the limit of a count.
const MEETS: u64 = 1 << 51;

// A table of zeroes, and the seat that has all the rights.
fn opened(alloc: Global, cells: u32) -> Result<(SharedWords, Seat<(), View>), OutOfMemory>
    ensures cells { IfOk result (λ t. t.0.cells ≡ cells) }
    ensures table { IfOk result (λ t. t.1.table_id ≡ t.0.table.shared.table_id) }
    ensures seat { IfOk result (λ t. t.1.me ≡ (new_view 16, [])) }
{
    let words = Vec::from_elem(alloc, 0u64, cells as usize + 1)?;
    let (table, mut seat) = HeaderTable::of_words(alloc, words.as_slice(), &cells)?;
    // No run finds 1 here, since the table was just made with 0. The rule alone doesn't exclude it, and an error
    // of its own would have no cause.
    if table.shared.swap::<FirstSeat>(&mut seat, 0, 1) != 0 {
        return Err(OutOfMemory);
    }
    Ok((SharedWords { table, cells }, seat))
}

// The passes but the first. Each takes one right from the seat.
fn others(
    alloc: Global,
    shared: &SharedWords,
    workers: u32,
    seat: &mut Seat<(), View>,
) -> Result<Vec<Pass>, OutOfMemory>
    requires workers { (0 < workers) × (workers ≤ MOST_WORKERS) }
    requires table { seat.old.table_id ≡ shared.now.table.shared.table_id }
    requires seat { seat.old.me ≡ (new_view 16, []) }
    ensures table { OnOk result (seat.new.table_id ≡ shared.now.table.shared.table_id) }
    ensures seat { OnOk result (seat.new.me ≡ (new_view (17 - workers), [])) }
    ensures passes { IfOk result (λ v. All (IsSeated shared.now workers) v.items) }
    ensures numbers { IfOk result (λ v. numbers v.items ≡ range_with_len 1 (workers - 1)) }
    ensures fresh { IfOk result (λ v. All IsFresh v.items) }
{
    let mut passes = Vec::with_capacity(alloc, workers as usize)?;
    for number in 1..workers {
        let other = shared.table.shared.split_seat::<OneRight>(seat);
        passes.push(Pass {
            reach: Reach::Table(other),
            number,
            workers,
            left: MEETS,
        })?;
    }
    Ok(passes)
}

// Several passes share the words.
fn shared_by(alloc: Global, cells: u32, workers: u32) -> Result<(Headers, Vec<Pass>), OutOfMemory>
    requires workers { (0 < workers) × (workers ≤ MOST_WORKERS) }
    ensures { IfOk result (λ r. AreNew cells workers r.0 r.1.items) }
{
    let (shared, mut seat) = opened(alloc, cells)?;
    let mut passes = others(alloc, &shared, workers, &mut seat)?;
    passes.insert(
        0,
        Pass {
            reach: Reach::Table(seat),
            number: 0,
            workers,
            left: MEETS,
        },
    )?;
    let headers = Headers {
        shared: Some(shared),
        cells,
        workers,
    };
    Ok((headers, passes))
}

// One pass has the words to itself.
fn owned_by_one(alloc: Global, cells: u32) -> Result<(Headers, Vec<Pass>), OutOfMemory>
    ensures { IfOk result (λ r. AreNew cells 1 r.0 r.1.items) }
{
    let mut passes = Vec::with_capacity(alloc, 1)?;
    passes.push_reserved(Pass {
        reach: Reach::Own(OwnWords::make(alloc, cells)?),
        number: 0,
        workers: 1,
        left: MEETS,
    });
    let headers = Headers {
        shared: None,
        cells,
        workers: 1,
    };
    Ok((headers, passes))
}

impl Headers {
    /// Words of zero for so many cells, and a pass for each of 1 to 16 workers, numbered from 0. A cell costs 8
    /// bytes, and with several workers 8 more while `make` runs. Answers `OutOfMemory` when memory runs out.
    pub fn make(
        alloc: Global,
        cells: u32,
        workers: u32,
    ) -> Result<(Headers, Vec<Pass>), OutOfMemory>
        requires workers { (0 < workers) × (workers ≤ MOST_WORKERS) }
        ensures cells { IfOk result (λ r. r.0.cells ≡ cells) }
        ensures count { IfOk result (λ r. length r.1.items ≡ workers) }
        ensures passes { IfOk result (λ r. ArePassesOf r.0 r.1.items) }
        ensures fresh { IfOk result (λ r. All IsFresh r.1.items) }
    {
        if workers == 1 {
            owned_by_one(alloc, cells)
        } else {
            shared_by(alloc, cells, workers)
        }
    }
}
