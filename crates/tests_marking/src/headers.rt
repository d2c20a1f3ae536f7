//! Header words: who wins a cell, how often it was met, and its marks. And tallies.
ghost use Rattle.std.specs.Prelude.{◌≡◌, ℕ, ◌<◌, ◌≤◌, length, slice_index_or};
ghost use Rattle.std.specs.List.{All};
ghost use Rattle.heap_base.specs.declared.limits.TheConstants.{MOST_WORKERS};
ghost use Rattle.header_rule.specs.Passes.{IsPassOf, IsSamePass, ArePassesOf};

use header_rule::{Headers, Marks, Pass, Words};
use instance_ledger::Tally;
use std::alloc::Global;
use std::sync::atomic::AtomicU64;
use std::sync::atomic::Ordering::SeqCst;
use std::test::Fail;
use std::thread::{Threads, for_each_mut};

const NONE: Marks = Marks {
    found: false,
    disputed: false,
    met_by_roots: false,
};

// A meet of a cell, and the marks that it sets.
#[derive(Clone, Copy)]
struct Meet {
    cell: u32,
    marks: Marks,
}

// Meets a cell, where a meet is left.
fn meet_once(headers: &Headers, cells: u32, pass: &mut Pass, meet: Meet) -> bool
    requires cells { headers.now.cells ≡ cells }
    requires pass { IsPassOf headers.now pass.old }
    ensures { IsSamePass headers.now pass.old pass.new }
{
    if meet.cell < cells && pass.left() > 0 {
        headers.meet(pass, meet.cell, meet.marks)
    } else {
        false
    }
}

// Meets cell 1 of two with the pass of this number.
fn meet_with(headers: &Headers, passes: &mut Vec<Pass>, number: usize, marks: Marks) -> bool
    requires cells { headers.now.cells ≡ 2 }
    requires passes { ArePassesOf headers.now passes.old.items }
    ensures { ArePassesOf headers.now passes.new.items }
{
    match passes.get_mut(number) {
        Some(pass) => meet_once(headers, 2, pass, Meet { cell: 1, marks }),
        None => false,
    }
}

// The marks of a cell: found, disputed, met by roots.
fn marks_of(words: &Words, cell: u32) -> (bool, bool, bool)
    requires { cell < words.now.cells }
{
    (
        words.found(cell),
        words.disputed(cell),
        words.met_by_roots(cell),
    )
}

// Whether the passes have these numbers in order, and each may meet so often.
fn are_as_made(passes: &[Pass], left: u64) -> bool {
    passes.len() == 2
        && passes.iter().enumerate().all(|(place, pass)| pass.number() as usize == place
            && pass.left() == left)
}

// Meets cell 1 by both passes, and says which of them won it.
fn meet_by_both(headers: &Headers, passes: &mut Vec<Pass>) -> (bool, bool)
    requires cells { headers.now.cells ≡ 2 }
    requires passes { ArePassesOf headers.now passes.old.items }
    ensures { ArePassesOf headers.now passes.new.items }
{
    let found = Marks {
        found: true,
        ..NONE
    };
    let first = meet_with(headers, passes, 0, NONE);
    let second = meet_with(headers, passes, 1, found);
    (first, second)
}

#[test]
fn a_meet_counts_and_marks_its_cell(rt: HostRuntime) -> Result<(), Fail> {
    let (headers, mut passes) = Headers::make(rt.alloc(), 2, 2)?;
    let made = are_as_made(passes.as_slice(), 2_251_799_813_685_248);
    let won = meet_by_both(&headers, &mut passes);
    let met = are_as_made(passes.as_slice(), 2_251_799_813_685_247);
    let words = headers.close(passes);
    assert!(rt; made && met && won == (true, false));
    assert_eq!(rt; (words.count(0), words.count(1)), (0, 2));
    let marks = [marks_of(&words, 0), marks_of(&words, 1)];
    assert_eq!(rt; marks, [(false, false, false), (true, false, false)]);
    Ok(())
}

// The marks of a cell that was met once.
fn marks_after(alloc: Global, given: Marks) -> Result<(bool, bool, bool), Fail> {
    let (headers, mut passes) = Headers::make(alloc, 2, 1)?;
    meet_with(&headers, &mut passes, 0, given);
    let words = headers.close(passes);
    Ok(marks_of(&words, 1))
}

#[test]
fn each_mark_is_its_own(rt: HostRuntime) -> Result<(), Fail> {
    for (found, disputed, met_by_roots) in [
        (false, false, false),
        (true, false, false),
        (false, true, false),
        (false, false, true),
        (true, true, true),
    ] {
        let given = Marks {
            found,
            disputed,
            met_by_roots,
        };
        let marks = marks_after(rt.alloc(), given)?;
        assert_eq!(rt; marks, (found, disputed, met_by_roots));
    }
    Ok(())
}

// Meets cells 1,000 times, in an order by the pass's number, and counts each win at its cell.
fn meet_in_order(headers: &Headers, cells: u32, pass: &mut Pass, won: &[AtomicU64])
    requires cells { headers.now.cells ≡ cells }
    requires pass { IsPassOf headers.now pass.old }
    ensures { IsSamePass headers.now pass.old pass.new }
{
    let (first, step) = match pass.number() {
        0 => (0, 1),
        1 => (999, 999),
        2 => (500, 7),
        _ => (250, 333),
    };
    for nth in 0..1_000u64 {
        let cell = (first + nth * step) % cells.max(1) as u64;
        let meet = Meet {
            cell: cell as u32,
            marks: NONE,
        };
        if meet_once(headers, cells, pass, meet) {
            if let Some(wins) = won.get(cell as usize) {
                wins.fetch_add(1, SeqCst);
            }
        }
    }
}

// What threads meet at the same time: how many cells, their headers, and a counter for the wins of each.
#[derive(Clone, Copy)]
struct Course<'a> {
    cells: u32,
    headers: &'a Headers,
    won: &'a [AtomicU64],
}

// Each pass in a thread of its own.
fn meet_in_threads<R: Threads + Sync>(rt: &R, course: Course<'_>, passes: &mut [Pass])
    requires cells { course.headers.now.cells ≡ course.cells }
    requires passes { All (IsPassOf course.headers.now) passes.old }
    ensures len { length passes.new ≡ length passes.old }
    ensures each { (i : ℕ) (d : _) → i < length passes.old → IsSamePass course.entry.headers.now (slice_index_or passes.old i d) (slice_index_or passes.new i d) }
{
    let Course {
        cells,
        headers,
        won,
    } = course;
    for_each_mut(
        rt,
        passes,
        4,
        &|_, pass: &mut Pass|
            requires { IsPassOf headers.now pass.old × (headers.now.cells ≡ cells) }
            ensures { IsSamePass headers.entry.now pass.old pass.new }
        { meet_in_order(headers, cells, pass, won) },
    );
}

// Whether each cell was met so often.
fn are_counted(words: &Words, cells: u32, count: u64) -> bool
    requires { words.now.cells ≡ cells }
{
    for cell in 0..cells {
        if words.count(cell) != count {
            return false;
        }
    }
    true
}

fn counters(alloc: Global, count: u32) -> Result<Vec<AtomicU64>, Fail> {
    let mut counters = Vec::with_capacity(alloc, count as usize)?;
    for _ in 0..count {
        counters.push(AtomicU64::new(0))?;
    }
    Ok(counters)
}

// So many workers that meet so many cells, and how often each cell is met then.
#[derive(Clone, Copy)]
struct Race {
    cells: u32,
    workers: u32,
    count: u64,
}

// Whether each of the cells was won once and met so often, after 1,000 meets by each worker.
fn is_fair<R: Threads + Sync>(rt: &R, alloc: Global, race: Race) -> Result<bool, Fail>
    requires { (0 < race.workers) × (race.workers ≤ MOST_WORKERS) }
{
    let Race {
        cells,
        workers,
        count,
    } = race;
    let won = counters(alloc, cells)?;
    let (headers, mut passes) = Headers::make(alloc, cells, workers)?;
    let course = Course {
        cells,
        headers: &headers,
        won: won.as_slice(),
    };
    meet_in_threads(rt, course, passes.as_mut_slice());
    let words = headers.close(passes);
    let won_once = won.iter().all(|wins| wins.load(SeqCst) == 1);
    Ok(won_once && are_counted(&words, cells, count))
}

#[test]
fn a_cell_is_won_once_by_whichever_thread(rt: HostRuntime) -> Result<(), Fail> {
    let one_cell = Race {
        cells: 1,
        workers: 2,
        count: 2_000,
    };
    let many_cells = Race {
        cells: 1_000,
        workers: 4,
        count: 4,
    };
    assert!(rt; is_fair(&rt, rt.alloc(), one_cell)?);
    assert!(rt; is_fair(&rt, rt.alloc(), many_cells)?);
    Ok(())
}

#[test]
fn tallies_are_merged(rt: HostRuntime) -> Result<(), Fail> {
    let mut tally = Tally::make(rt.alloc(), 2)?;
    tally.add(1);
    tally.add(1);
    let mut other = Tally::make(rt.alloc(), 2)?;
    other.add(1);
    tally.merge(&other);
    assert_eq!(rt; (tally.of(0), tally.of(1)), (0, 3));
    Ok(())
}
