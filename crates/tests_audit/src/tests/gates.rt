//! Two workers at a collection, each on a thread of its own: gates that hold the one until the other has gone on. Small heaps are traced by two
//! workers that cost nothing. `audit` has two workers for a heap of 131,072 cells or more, and a crew of two has two threads where a worker may
//! have 1,000 tasks or more; a smaller heap is traced by one.

ghost use Rattle.heap_base.specs.Limits.{ArePossible};

use audit_run::{Costs, Setup, audit_with};
use heap_base::{Limits, Status};
use std::alloc::Global;
use std::process::Abort;
use std::test::Fail;
use std::thread::Threads;
use steal_pool::Gate;
use streams::{MemSink, MemSource};
use tests_support::{Hold, Holding, UNTIL_BOTH_BEGIN, Watch, until_many_are_begun};

/// Two roots: `a` names an object with so many children, which worker 0 begins with, and `b` one without any, which is the
/// only task that worker 1 gets.
fn family(alloc: Global, children: u32) -> Result<String, Fail> {
    let mut trace = String::new(alloc);
    trace.push_str(&format!(in alloc;
        "{{\"op\":\"alloc\",\"id\":1,\"type\":\"A\",\"slots\":{children}}}\n"
    )?)?;
    trace.push_str(
        "{\"op\":\"alloc\",\"id\":2,\"type\":\"A\",\"slots\":0}\n\
         {\"op\":\"root\",\"name\":\"a\",\"to\":1}\n\
         {\"op\":\"root\",\"name\":\"b\",\"to\":2}\n",
    )?;
    for slot in 0..children {
        let child = slot.saturating_add(3);
        trace.push_str(&format!(in alloc;
            "{{\"op\":\"alloc\",\"id\":{child},\"type\":\"A\",\"slots\":0}}\n\
             {{\"op\":\"store\",\"at\":1,\"slot\":{slot},\"to\":{child}}}\n"
        )?)?;
    }
    trace.push_str("{\"op\":\"collect\"}\n")?;
    Ok(trace)
}

/// The report on a family of so many objects.
fn report_on(alloc: Global, objects: u32) -> Result<String, Fail> {
    Ok(format!(in alloc; "gc 1 live {objects} traced {objects} freed 0\nend gcs 1 violations 0\n")?)
}

/// Audits a trace with two workers at most, which cost so much, by this gate.
fn expect_report<R: Threads + Abort + Sync, G: Gate>(
    setup: Setup<'_, R, G>,
    trace: &str,
    objects: u32,
) -> Result<(), Fail>
    requires { ArePossible setup.limits }
{
    let Setup { rt, alloc, .. } = setup;
    let mut source = MemSource::make(alloc, trace.as_bytes(), 4096, &[])?;
    let mut sink = MemSink::make(alloc, 4096, 4096, &[])?;
    let words = ["gcaudit", "--workers", "2"];
    let status = audit_with(setup, &words, &mut source, &mut sink);
    assert_eq!(rt; status, Status::Clean);
    let report = report_on(alloc, objects)?;
    assert_eq!(rt; sink.bytes(), report.as_bytes());
    Ok(())
}

/// Audits the trace with two workers that cost nothing and are held so. No worker is to give up.
fn expect_held<R: Threads + Abort + Sync>(
    rt: &R,
    alloc: Global,
    holds: &[Hold],
    trace: &str,
    objects: u32,
) -> Result<(), Fail> {
    let gate = Holding {
        holds,
        watch: Watch::new(),
    };
    let setup = Setup {
        rt,
        alloc,
        gate: &gate,
        costs: Costs::none(),
        limits: Limits::usual(),
    };
    expect_report(setup, trace, objects)?;
    assert!(rt; !gate.watch.gave_up());
    Ok(())
}

/// Each worker is held in its first task until the other has begun one.
#[test]
fn both_workers_begin(rt: HostRuntime) -> Result<(), Fail> {
    let trace = family(rt.alloc(), 1_000)?;
    expect_held(&rt, rt.alloc(), &UNTIL_BOTH_BEGIN, &trace, 1_002)
}

/// Worker 0 begins with a chain of three objects, and worker 1 with an object that holds nothing, in which it is held until worker 0 has begun
/// three tasks.
#[test]
fn a_worker_goes_on_while_another_is_held(rt: HostRuntime) -> Result<(), Fail> {
    let trace = "{\"op\":\"alloc\",\"id\":1,\"type\":\"A\",\"slots\":1}\n\
         {\"op\":\"alloc\",\"id\":2,\"type\":\"A\",\"slots\":1}\n\
         {\"op\":\"alloc\",\"id\":3,\"type\":\"A\"}\n\
         {\"op\":\"alloc\",\"id\":4,\"type\":\"B\"}\n\
         {\"op\":\"store\",\"at\":1,\"slot\":0,\"to\":2}\n\
         {\"op\":\"store\",\"at\":2,\"slot\":0,\"to\":3}\n\
         {\"op\":\"root\",\"name\":\"a\",\"to\":1}\n\
         {\"op\":\"root\",\"name\":\"b\",\"to\":4}\n\
         {\"op\":\"collect\"}\n";
    expect_held(&rt, rt.alloc(), &until_many_are_begun(3), trace, 4)
}

/// Worker 0 is held in its second task, while its other tasks wait, until worker 1 has begun a second. Worker 1 got one
/// task, which puts none: its second is one of worker 0's.
#[test]
fn a_waiting_task_is_stolen(rt: HostRuntime) -> Result<(), Fail> {
    let holds = [
        Hold {
            worker: 1,
            nth: 1,
            until: 2,
        },
        Hold {
            worker: 0,
            nth: 2,
            until: 2,
        },
    ];
    let trace = family(rt.alloc(), 1_000)?;
    expect_held(&rt, rt.alloc(), &holds, &trace, 1_002)
}

// How many tasks each of two workers of the usual cost begins, of a family of so many children.
fn begun_by_each<R: Threads + Abort + Sync>(
    rt: &R,
    alloc: Global,
    children: u32,
    holds: &[Hold],
) -> Result<(u64, u64), Fail> {
    let gate = Holding {
        holds,
        watch: Watch::new(),
    };
    let setup = Setup {
        rt,
        alloc,
        gate: &gate,
        costs: Costs::usual(),
        limits: Limits::usual(),
    };
    expect_report(setup, &family(alloc, children)?, children.saturating_add(2))?;
    assert!(rt; !gate.watch.gave_up());
    Ok((gate.watch.begun(0), gate.watch.begun(1)))
}

/// Of a heap of 140,002 objects each worker is held in its first task until the other has begun one.
#[test]
fn a_large_heap_is_traced_by_both_workers(rt: HostRuntime) -> Result<(), Fail> {
    let (first, second) = begun_by_each(&rt, rt.alloc(), 140_000, &UNTIL_BOTH_BEGIN)?;
    assert!(&rt; first > 0 && second > 0);
    Ok(())
}

/// A heap of 100,002 objects is traced by one worker, which begins each of them: the other begins none.
#[test]
fn a_small_heap_is_traced_by_one_worker(rt: HostRuntime) -> Result<(), Fail> {
    let begun = begun_by_each(&rt, rt.alloc(), 100_000, &[])?;
    assert_eq!(&rt; begun, (100_002, 0));
    Ok(())
}
