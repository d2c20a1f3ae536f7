//! The regions that threads have open.
ghost use Rattle.std.specs.Prelude.{◌≤◌};
ghost use Rattle.std.specs.List.{All};

use heap_base::{ObjId, ThreadNo};
use region_log::RegionLog;
use std::alloc::Global;
use std::process::Abort;
use std::test::Fail;
use tests_support::id;

// The thread with this number.
fn thread(n: u32) -> Result<ThreadNo, Fail> {
    Ok(ThreadNo::of(n).ok_or("not a thread")?)
}

// Whether the ids are these numbers.
fn are(ids: &[ObjId], numbers: &[u32]) -> bool {
    ids.len() == numbers.len() && ids.iter().zip(numbers).all(|(id, n)| id.number() == *n)
}

// A log, and the last id that was noted in it.
#[derive(Drop)]
struct Run {
    log: RegionLog,
    last: u32,
    ghost below: { All (All (All (λ id. id ≤ last))) log.regions },
}

impl Run {
    fn make(alloc: Global) -> Result<Run, Fail> {
        let log = RegionLog::make(alloc)?;
        Ok(Run { log, last: 0 })
    }

    fn start(&mut self, n: u32) -> Result<(), Fail> {
        let thread = thread(n)?;
        Ok(self.log.start(thread)?)
    }

    // Adds an object, whose id must be above all before it.
    fn note(&mut self, rt: &impl Abort, n: u32, object: u32) -> Result<(), Fail> {
        assert!(rt; self.last < object);
        let id = id(object)?;
        let thread = thread(n)?;
        self.log.reserve(thread)?;
        self.log.note(thread, id);
        self.last = object;
        Ok(())
    }

    fn finish(&mut self, n: u32) -> Result<(), Fail> {
        let thread = thread(n)?;
        Ok(self.log.finish(thread)?)
    }

    // Whether these are the ids in the innermost region of the thread, and those of them that are unasserted.
    fn has(&self, n: u32, members: &[u32], unasserted: &[u32]) -> Result<bool, Fail> {
        let thread = thread(n)?;
        Ok(
            are(&self.log.members(thread)?, members)
                && are(self.log.unasserted(thread)?, unasserted),
        )
    }
}

fn check_members(rt: &impl Abort, run: &mut Run) -> Result<(), Fail> {
    run.start(7)?;
    run.note(rt, 7, 5)?;
    run.start(7)?;
    run.note(rt, 7, 8)?;
    assert!(rt; run.has(7, &[8], &[8])?);
    run.finish(7)?;
    assert!(rt; run.has(7, &[5, 8], &[5])?);
    Ok(())
}

#[test]
fn an_object_belongs_to_the_outer_regions_too(rt: HostRuntime) -> Result<(), Fail> {
    let mut run = Run::make(rt.alloc())?;
    check_members(&rt, &mut run)
}
