//! A collection: the heap is traced, the assertions are checked, and what was not reached is freed.
ghost use Rattle.std.specs.Prelude.{◌≡◌, ◌<◌, ◌≤◌, ◌^◌, is_some, IfOk, IfSome, OnOk, OnErr};
ghost use Rattle.heap_parts.specs.Parts.{AreDeadAndTraced};
ghost use Rattle.heap_marking.specs.Traces.{IsTraceOf};
ghost use Rattle.audit_core.specs.Audit.{AreItsRoles, heap_in, audit_table, next_collection, next_counted, after_next};

use crate::auditor::Auditor;
use crate::verdict_lists::verdicts;
use graph_meaning::{Collection, Roles};
use heap_base::OutOfMemory;
use heap_marking::{Kit, Traced, Workers, trace};
use std::thread::Threads;
use steal_pool::{Gate, ThreadCost};
use verdict_list::total_with;

/// What a worker that marks the heap costs. No collection depends on it, only how many workers and threads it is made by.
#[derive(Clone, Copy, Debug)]
pub struct WorkerCost {
    /// So many cells pay for a second worker, and as many more for each further one. Where it is 0, all workers mark every heap.
    pub cells: u32,
    pub threads: ThreadCost,
}

impl WorkerCost {
    /// What a worker costs on a machine of today: its memory, and the thread that is started for it. A new thread may share a processor with
    /// the one that started it for some milliseconds, in which one worker marks this many objects.
    pub fn usual() -> WorkerCost {
        WorkerCost {
            cells: 131_072,
            threads: ThreadCost::usual(),
        }
    }

    /// All workers mark every heap, each in a thread of its own.
    pub fn none() -> WorkerCost {
        WorkerCost {
            cells: 0,
            threads: ThreadCost::none(),
        }
    }

    // How many workers, at most so many, mark a table of so many cells.
    fn workers_for(self, cells: u32, most: u32) -> u32
        requires { 0 < most }
        ensures { (0 < result) × (result ≤ most) }
    {
        if self.cells == 0 {
            most
        } else {
            (cells / self.cells).saturating_add(1).min(most)
        }
    }
}

impl Auditor {
    /// The roles that the assertions make of the heap as it stands.
    pub fn start_collect(&self) -> Result<Roles, OutOfMemory>
        ensures roles { IfOk result (AreItsRoles self.now) }
    {
        self.parts.roles()
    }

    /// Checks the assertions by these roles and this trace of the heap as it stands, and frees what was not reached.
    /// The verdict on an object that is asserted unshared shows the count of the trace. By force what is asserted dead
    /// and was reached is cut off besides. All memory is taken before the sweep: when out of memory nothing has changed.
    pub fn finish_collect(
        &mut self,
        roles: &Roles,
        traced: &Traced,
    ) -> Result<Collection, OutOfMemory>
        requires few { self.old.collections < 2 ^ 40 }
        requires roles { AreItsRoles self.old roles.now }
        requires trace { IsTraceOf (audit_table self.old) self.old.heap traced.now }
        ensures found { IfOk result (λ c. c ≡ next_counted traced.now self.old) }
        ensures after { OnOk result (self.new ≡ record (after_next self.old) { cells = self.new.cells }) }
        ensures err { OnErr result (self.new ≡ self.old) }
    {
        let table = self.parts.table();
        let verdicts = verdicts(self.alloc, table, roles, traced, self.paths)?;
        let violations = total_with(self.violations, &verdicts)?;
        let to_clear = self.to_clear(roles, traced)?;
        let live = table.live();
        let swept = self.parts.finish(traced.kept(), to_clear.as_ref());
        self.collections += 1;
        self.violations = violations;
        Ok(Collection {
            number: self.collections,
            live,
            traced: traced.traced(),
            freed: swept.freed,
            cleared: swept.cleared,
            verdicts,
        })
    }

    // For each cell whether its object is to be cut off, where that is done by force.
    fn to_clear(&self, roles: &Roles, traced: &Traced) -> Result<Option<Vec<bool>>, OutOfMemory>
        requires roles { AreItsRoles self.now roles.now }
        requires trace { IsTraceOf (audit_table self.now) self.now.heap traced.now }
        ensures force { IfOk result (λ to_clear. is_some to_clear ≡ self.now.rules.force) }
        ensures flags { IfOk result (λ to_clear. IfSome to_clear (λ flags. AreDeadAndTraced (heap_in self.now) flags.items)) }
    {
        if !self.force {
            return Ok(None);
        }
        let flags = self.parts.to_clear(self.alloc, roles, traced.kept())?;
        Ok(Some(flags))
    }

    /// Traces the heap by the auditor's workers, of a small heap by few of them, checks the assertions, and frees what was not reached; by force it cuts
    /// off what is asserted dead and was reached. All memory is taken before the sweep: when out of memory nothing has
    /// changed.
    pub fn collect<R: Threads + Sync, G: Gate>(
        &mut self,
        rt: &R,
        gate: &G,
    ) -> Result<Collection, OutOfMemory>
        requires few { self.old.collections < 2 ^ 40 }
        ensures found { IfOk result (λ c. c ≡ next_collection self.old) }
        ensures after { OnOk result (self.new ≡ record (after_next self.old) { cells = self.new.cells }) }
        ensures err { OnErr result (self.new ≡ self.old) }
    {
        self.collect_at(rt, gate, WorkerCost::usual())
    }

    /// The same collection by workers of this cost.
    pub fn collect_at<R: Threads + Sync, G: Gate>(
        &mut self,
        rt: &R,
        gate: &G,
        cost: WorkerCost,
    ) -> Result<Collection, OutOfMemory>
        requires few { self.old.collections < 2 ^ 40 }
        ensures found { IfOk result (λ c. c ≡ next_collection self.old) }
        ensures after { OnOk result (self.new ≡ record (after_next self.old) { cells = self.new.cells }) }
        ensures err { OnErr result (self.new ≡ self.old) }
    {
        let roles = self.start_collect()?;
        let table = self.table();
        let workers = Workers {
            number: cost.workers_for(table.cells(), self.workers),
            cost: cost.threads,
        };
        let kit = Kit::prepare_for(self.alloc, table.cells(), table.kinds(), workers)?;
        let traced = trace(rt, kit, table, &roles, gate)?;
        self.finish_collect(&roles, &traced)
    }
}
