//! The threads of a crew, as the system counts them: they are there while the crew is, and gone when it was ended or dropped.

use parked_crew::Residents;
use std::fs;
use std::sync::Arc;
use std::test::Fail;
use steal_pool::OpenGate;
use tests_support::{Cells, Counter};

/// How often the threads are counted at most, where they may still be ending.
const PATIENCE: u32 = 100_000;

fn threads(rt: &HostRuntime) -> Result<usize, Fail> {
    let mut count = 0usize;
    for entry in fs::read_dir(rt, "/proc/self/task")? {
        entry?;
        count = count.saturating_add(1);
    }
    Ok(count)
}

fn come_to(rt: &HostRuntime, count: usize) -> Result<bool, Fail> {
    for _ in 0..PATIENCE {
        if threads(rt)? == count {
            return Ok(true);
        }
    }
    Ok(false)
}

type Crew = Residents<Cells, Counter, OpenGate>;

#[test]
fn a_crew_that_is_ended_leaves_no_thread(rt: HostRuntime) -> Result<(), Fail> {
    let before = threads(&rt)?;
    let gate = Arc::new(rt.alloc(), OpenGate)?;
    let crew: Crew = Residents::start(&rt, rt.alloc(), 4, gate)?;
    let with_crew = threads(&rt)?;
    crew.end(&rt);
    assert_eq!(rt; with_crew, before.saturating_add(3));
    assert!(rt; come_to(&rt, before)?);
    Ok(())
}

#[test]
fn a_crew_that_is_dropped_leaves_no_thread(rt: HostRuntime) -> Result<(), Fail> {
    let before = threads(&rt)?;
    let gate = Arc::new(rt.alloc(), OpenGate)?;
    let crew: Crew = Residents::start(&rt, rt.alloc(), 4, gate)?;
    drop(crew);
    assert!(rt; come_to(&rt, before)?);
    Ok(())
}
