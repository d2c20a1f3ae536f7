//! What an event does to an audit.
ghost use Rattle.std.specs.Prelude.{◌+◌, ◌<◌, ◌≤◌};
ghost use Rattle.heap_base.specs.declared.limits.TheConstants.{LONGEST_TRACE};
ghost use Rattle.trace_run.specs.Program.{TakesEvent};
ghost use Rattle.trace_run.specs.Audits.{audit_meaning};
ghost use Rattle.audit_run.specs.Auditors.{MakesCollections, MayCollect};
ghost use Rattle.audit_run.specs.State.{state_in};

use crate::collecting::make_collection;
use crate::program::TraceAudit;
use audit_core::Auditor;
use graph_meaning::{Collection, Event, Stop};
use heap_base::OutOfMemory;
use trace_run::Taken;

/// Takes an event: an operation is applied, and a collection is made by `collect`.
pub fn take_event<C: FnMut(&mut Auditor) -> Result<Collection, OutOfMemory>>(
    audit: &mut TraceAudit,
    event: &Event,
    collect: &mut C,
) -> Result<Taken, Stop>
    requires few { audit.old.auditor.collections < LONGEST_TRACE }
    requires may_collect { MayCollect C.pre }
    requires collects { MakesCollections C.step }
    ensures takes { TakesEvent (audit_meaning.takes (state_in audit.old) event.now) result (state_in audit.new) }
    ensures few { audit.new.auditor.collections ≤ audit.old.auditor.collections + 1 }
{
    match event {
        Event::Collect => {
            match make_collection(audit.alloc, audit.react, &mut audit.auditor, collect) {
                Ok(taken) => Ok(taken),
                Err(_) => Err(Stop::OutOfMemory),
            }
        }
        _ => match audit.auditor.apply(event) {
            Ok(()) => Ok(Taken::GoesOn(None)),
            Err(Stop::Refused(refusal)) => Err(Stop::Refused(refusal)),
            Err(Stop::OutOfMemory) => Err(Stop::OutOfMemory),
        },
    }
}
