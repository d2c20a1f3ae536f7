//! A collection by workers that stay.
ghost use Rattle.std.specs.Prelude.{◌<◌};
ghost use Rattle.heap_base.specs.declared.limits.TheConstants.{LONGEST_TRACE};
ghost use Rattle.audit_run.specs.Auditors.{IsCollected};

use crate::marking::trace_resident;
use crate::phases::TraceCrew;
use audit_core::Auditor;
use graph_meaning::Collection;
use heap_base::OutOfMemory;
use std::alloc::Global;
use std::sync::Wait;
use steal_pool::Gate;

/// Makes the auditor's next collection, whose heap the crew traces. When out of memory the auditor is as it was, and the crew can trace
/// again.
pub fn collect_resident<R: Wait, G: Gate + Send + Drop + 'static>(
    rt: &R,
    alloc: Global,
    crew: &mut TraceCrew<G>,
    auditor: &mut Auditor,
) -> Result<Collection, OutOfMemory>
    requires few { auditor.old.collections < LONGEST_TRACE }
    ensures { IsCollected auditor.old result auditor.new }
{
    let roles = auditor.start_collect()?;
    let table = auditor.table();
    let traced = trace_resident(rt, alloc, crew, table, &roles)?;
    let collection = auditor.finish_collect(&roles, &traced)?;
    Ok(collection)
}
