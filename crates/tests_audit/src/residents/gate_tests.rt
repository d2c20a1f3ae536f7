//! Two workers of one crew work at the same time: in each of two runs, in each of two traces, and in a collection of an audit.
//!
//! Each run may have 1,000 tasks or more at a worker, since a smaller one goes without threads.

use super::families::{family_table, family_trace};
use super::gates::Meeting;
use super::runs::run_cells;
use heap_base::{OutOfMemory, Status};
use object_table::ObjectTable;
use parked_crew::Residents;
use resident_crew::{ResidentJob, ResidentScan, audit_resident, trace_resident};
use std::sync::{Arc, Wait};
use std::test::Fail;
use std::thread::Threads;
use streams::{MemSink, MemSource};
use tests_support::{Cells, Counter, Host, SampleHeap, Shape, roles_in, times_seen};

// A run in which each of two workers has a first task. The first cell leads to 1,000 others, which lead nowhere; the second is done once more.
fn runs_well<R: Wait>(
    host: &Host<'_, R>,
    crew: &mut Residents<Cells, Counter, Meeting>,
) -> Result<bool, OutOfMemory> {
    let fan = Cells {
        count: 1_001,
        shape: Shape::Fan,
    };
    let cells = Arc::new(host.alloc, fan)?;
    let jobs = run_cells(host, crew, &cells, &[(0, 0), (1, 1)])?;
    Ok(times_seen(&jobs, 0) == 1 && times_seen(&jobs, 1) == 2 && times_seen(&jobs, 1_000) == 1)
}

#[test]
fn both_workers_begin_in_each_run(rt: HostRuntime) -> Result<(), Fail> {
    let host = Host::of(&rt, rt.alloc());
    let gate = Arc::new(rt.alloc(), Meeting::new())?;
    let mut crew = Residents::start(&rt, rt.alloc(), 2, gate.clone()?)?;
    let first = runs_well(&host, &mut crew)?;
    let second = runs_well(&host, &mut crew)?;
    crew.end(&rt);
    assert!(rt; first && second);
    assert!(rt; gate.met_in(2));
    Ok(())
}

// How many objects are traced in the table, of which nothing is asserted.
fn count_traced<R: Wait>(
    host: &Host<'_, R>,
    crew: &mut Residents<ResidentScan, ResidentJob, Meeting>,
    table: &ObjectTable,
) -> Result<u32, Fail> {
    let roles = roles_in(host.alloc, table, SampleHeap::EMPTY)?;
    let traced = trace_resident(host.rt, host.alloc, crew, table, &roles)?;
    Ok(traced.traced())
}

// How many objects each of two traces by one crew has traced, and whether both workers began in the first of them.
fn count_twice<R: Wait>(
    host: &Host<'_, R>,
    crew: &mut Residents<ResidentScan, ResidentJob, Meeting>,
    table: &ObjectTable,
    gate: &Meeting,
) -> Result<(u32, u32, bool), Fail> {
    let first = count_traced(host, crew, table)?;
    let have_met = gate.met_in(1);
    let second = count_traced(host, crew, table)?;
    Ok((first, second, have_met))
}

// The same of a crew of two workers, and whether both began in each of the traces.
fn count_by_two<R: Threads + Wait + Clone + Drop + Send + Sync + 'static>(
    host: &Host<'_, R>,
    table: &ObjectTable,
) -> Result<((u32, u32, bool), bool), Fail> {
    let gate = Arc::new(host.alloc, Meeting::new())?;
    let mut crew = Residents::start(host.rt, host.alloc, 2, gate.clone()?)?;
    let traced = count_twice(host, &mut crew, table, &gate)?;
    crew.end(host.rt);
    Ok((traced, gate.met_in(2)))
}

#[test]
fn both_workers_begin_in_each_trace(rt: HostRuntime) -> Result<(), Fail> {
    let host = Host::of(&rt, rt.alloc());
    let table = family_table(rt.alloc())?;
    let seen = count_by_two(&host, &table)?;
    assert_eq!(rt; seen, ((1_002, 1_002, true), true));
    Ok(())
}

#[test]
fn both_workers_begin_in_a_collection(rt: HostRuntime) -> Result<(), Fail> {
    let trace = family_trace(rt.alloc())?;
    let gate = Arc::new(rt.alloc(), Meeting::new())?;
    let mut source = MemSource::make(rt.alloc(), trace.as_bytes(), 4096, &[])?;
    let mut sink = MemSink::make(rt.alloc(), 4096, 4096, &[])?;
    let words = ["gcresident", "--workers", "2"];
    let status = audit_resident(
        &rt,
        rt.alloc(),
        &words,
        &mut source,
        &mut sink,
        gate.clone()?,
    );
    assert_eq!(rt; status, Status::Clean);
    let report = b"gc 1 live 1002 traced 1002 freed 0\nend gcs 1 violations 0\n";
    assert_eq!(rt; sink.bytes(), report.as_slice());
    assert!(rt; gate.met_in(1));
    Ok(())
}
