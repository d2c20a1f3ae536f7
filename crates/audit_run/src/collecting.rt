//! A collection of an audit.
ghost use Rattle.std.specs.Prelude.{◌≡◌, ◌+◌, ◌<◌, ◌≤◌, Ok, IfOk};
ghost use Rattle.heap_base.specs.declared.limits.TheConstants.{LONGEST_TRACE};
ghost use Rattle.graph_meaning.specs.declared.event.Event.TheVariants.{Collect};
ghost use Rattle.report.specs.Run.{RunRules, collection_rules};
ghost use Rattle.trace_run.specs.Program.{TakesEvent};
ghost use Rattle.trace_run.specs.Audits.{audit_meaning};
ghost use Rattle.audit_run.specs.Auditors.{MakesCollections, MayCollect, auditor_state};

use audit_core::Auditor;
use graph_meaning::{Collection, React};
use heap_base::OutOfMemory;
use std::alloc::Global;
use trace_run::{Taken, due_behind};

/// Makes a collection, and gives what it makes due.
pub fn make_collection<C: FnMut(&mut Auditor) -> Result<Collection, OutOfMemory>>(
    alloc: Global,
    react: React,
    auditor: &mut Auditor,
    collect: &mut C,
) -> Result<Taken, OutOfMemory>
    requires few { auditor.old.collections < LONGEST_TRACE }
    requires may_collect { MayCollect C.pre }
    requires collects { MakesCollections C.step }
    ensures takes { (rules : RunRules) → rules.react ≡ react → auditor.old.rules ≡ collection_rules rules →
        IfOk result (λ taken. TakesEvent (audit_meaning.takes (auditor_state rules auditor.old) Collect) (Ok taken) (auditor_state rules auditor.new)) }
    ensures rules { auditor.new.rules ≡ auditor.old.rules }
    ensures few { auditor.new.collections ≤ auditor.old.collections + 1 }
{
    let collection = collect(auditor)?;
    due_behind(alloc, react, collection)
}
