//! Each task is done once, by one and by many workers, in run after run of one crew.
ghost use Rattle.std.specs.Prelude.{◌<◌, ◌≤◌};

use super::runs::run_cells;
use heap_base::OutOfMemory;
use parked_crew::Residents;
use std::sync::{Arc, Wait};
use std::test::Fail;
use std::thread::Threads;
use steal_pool::OpenGate;
use tests_support::{Cells, Counter, Host, Shape, are_seen};

type Crew = Residents<Cells, Counter, OpenGate>;

fn new_crew<R: Threads + Wait + Clone + Drop + Send + Sync + 'static>(
    host: &Host<'_, R>,
    workers: u32,
) -> Result<Crew, OutOfMemory>
    requires some { 0 < workers }
    requires few { workers ≤ 16 }
{
    let gate = Arc::new(host.alloc, OpenGate)?;
    Residents::start(host.rt, host.alloc, workers, gate)
}

// Whether a run with these first tasks does each cell as often as there are first tasks: once with that of the first cell, and never
// with none.
fn does_each<R: Wait>(
    host: &Host<'_, R>,
    crew: &mut Crew,
    cells: Cells,
    firsts: &[(u32, u32)],
) -> Result<bool, OutOfMemory> {
    let count = cells.count;
    let cells = Arc::new(host.alloc, cells)?;
    let jobs = run_cells(host, crew, &cells, firsts)?;
    Ok(are_seen(&jobs, count, firsts.len() as u64))
}

// The cells 0 to 3 in a row; none of them, without a first task; and so many that each worker with a task has a thread.
fn does_all<R: Wait>(host: &Host<'_, R>, crew: &mut Crew) -> Result<bool, OutOfMemory> {
    let chain = Cells {
        count: 4,
        shape: Shape::Chain,
    };
    let none = Cells {
        count: 4,
        shape: Shape::Chain,
    };
    let tree = Cells {
        count: 20_000,
        shape: Shape::Tree,
    };
    Ok(
        does_each(host, crew, chain, &[(0, 0)])?
            && does_each(host, crew, none, &[])?
            && does_each(host, crew, tree, &[(0, 0)])?,
    )
}

#[test]
fn each_cell_is_done_once(rt: HostRuntime) -> Result<(), Fail> {
    let host = Host::of(&rt, rt.alloc());
    for workers in [1, 2, 16] {
        let mut crew = new_crew(&host, workers)?;
        let is_done = does_all(&host, &mut crew)?;
        crew.end(&rt);
        assert!(rt; is_done, "{workers}");
    }
    Ok(())
}

// How many of so many runs of one crew do each cell of a tree once.
fn good_runs<R: Wait>(host: &Host<'_, R>, crew: &mut Crew, runs: u32) -> Result<u32, OutOfMemory> {
    let mut good = 0u32;
    for _ in 0..runs {
        let tree = Cells {
            count: 1_500,
            shape: Shape::Tree,
        };
        if does_each(host, crew, tree, &[(0, 0)])? {
            good = good.saturating_add(1);
        }
    }
    Ok(good)
}

#[test]
fn a_crew_runs_a_thousand_times(rt: HostRuntime) -> Result<(), Fail> {
    let host = Host::of(&rt, rt.alloc());
    let mut crew = new_crew(&host, 2)?;
    let good = good_runs(&host, &mut crew, 1_000)?;
    crew.end(&rt);
    assert_eq!(rt; good, 1_000);
    Ok(())
}
