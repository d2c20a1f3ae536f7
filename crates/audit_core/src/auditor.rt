//! The auditor.
ghost use Rattle.std.specs.Prelude.{◌≡◌, ◌<◌, ◌≤◌, Ok, IsTrue, IfOk, OnOk, OnErr};
ghost use Rattle.std.specs.Result.{result_err};
ghost use Rattle.heap_base.specs.declared.limits.TheConstants.{MOST_WORKERS};
ghost use Rattle.heap_base.specs.Limits.{ArePossible, usual_limits};
ghost use Rattle.graph_meaning.specs.Answers.{RefusesBy};
ghost use Rattle.graph_meaning.specs.Step.{step};
ghost use Rattle.heap_parts.specs.Parts.{is_operation};
ghost use Rattle.audit_core.specs.Audit.{first_audit, rules_with, audit_table};

use graph_meaning::{Event, Stop};
use heap_base::{Limits, OutOfMemory};
use heap_parts::HeapParts;
use object_table::ObjectTable;
use std::alloc::Global;
use std::marker::Model;

/// Follows the operations of a trace, and collects. Contracts see it as an `Audit`.
#[derive(Drop)]
pub struct Auditor {
    pub(crate) parts: HeapParts,
    // how many workers trace the heap
    pub(crate) workers: u32,
    // how many verdicts of a collection carry their paths
    pub(crate) paths: u32,
    // whether what is asserted dead is cut off by force
    pub(crate) force: bool,
    pub(crate) collections: u64,
    pub(crate) violations: u64,
    pub(crate) alloc: Global,
}

impl Model for Auditor {
    ghost use Rattle.std.specs.Prelude.{◌<◌, ◌≤◌};
    ghost use Rattle.heap_base.specs.declared.limits.TheConstants.{MOST_WORKERS};
    ghost use Rattle.audit_core.specs.Audit.{Audit, rules_with};

    ghost Value = { Audit };

    ghost view = { λ a. record { heap = a.parts.heap; cells = a.parts.cells; rules = rules_with a.paths a.force; collections = a.collections; violations = a.violations } };

    ghost invariant = { λ a. (0 < a.workers) × (a.workers ≤ MOST_WORKERS) };
}

/// What an auditor goes by: how many verdicts of a collection carry their paths, whether what is asserted dead is cut off by
/// force, and the limits of the heap.
#[derive(Clone, Copy, Debug)]
pub struct AuditorRules {
    pub paths: u32,
    pub force: bool,
    pub most: Limits,
}

impl Auditor {
    /// An auditor at the beginning of a trace, under the usual limits. Each of its collections traces the heap with 1 to 16
    /// workers, and shows the paths of so many of its first verdicts. With force a collection cuts off what is asserted dead and
    /// was traced: no slot and no root holds it afterwards. Answers `OutOfMemory` when memory runs out.
    pub fn make(
        alloc: Global,
        workers: u32,
        paths: u32,
        force: bool,
    ) -> Result<Auditor, OutOfMemory>
        requires workers { (0 < workers) × (workers ≤ MOST_WORKERS) }
        ensures first { IfOk result (λ a. a ≡ first_audit usual_limits (rules_with paths force)) }
    {
        let rules = AuditorRules {
            paths,
            force,
            most: Limits::usual(),
        };
        Auditor::by_rules(alloc, workers, rules)
    }

    /// The same by these rules.
    pub fn by_rules(
        alloc: Global,
        workers: u32,
        rules: AuditorRules,
    ) -> Result<Auditor, OutOfMemory>
        requires workers { (0 < workers) × (workers ≤ MOST_WORKERS) }
        requires possible { ArePossible rules.most }
        ensures first { IfOk result (λ a. a ≡ first_audit rules.most (rules_with rules.paths rules.force)) }
    {
        let AuditorRules { paths, force, most } = rules;
        let parts = HeapParts::make(alloc, most)?;
        Ok(Auditor {
            parts,
            workers,
            paths,
            force,
            collections: 0,
            violations: 0,
            alloc,
        })
    }

    /// Applies an operation to the heap. It refuses what `step` of the definitions refuses, for the same reason, whether or not
    /// there is memory. After a refusal, and when out of memory, nothing has changed.
    pub fn apply(&mut self, event: &Event) -> Result<(), Stop>
        requires operation { IsTrue (is_operation event.now) }
        ensures refused { RefusesBy result (result_err (step self.old.heap event.now)) }
        ensures applied { OnOk result (step self.old.heap event.now ≡ Ok self.new.heap) }
        ensures rest { self.new ≡ record self.old { heap = self.new.heap; cells = self.new.cells } }
        ensures err { OnErr result (self.new ≡ self.old) }
    {
        self.parts.apply(event)
    }

    /// How many collections were made.
    pub fn collections(&self) -> u64
        ensures count { result ≡ self.now.collections }
    {
        self.collections
    }

    /// How many verdicts all collections had together.
    pub fn violations(&self) -> u64
        ensures count { result ≡ self.now.violations }
    {
        self.violations
    }

    /// The table of the heap.
    pub fn table(&self) -> &ObjectTable
        ensures table { result.now ≡ audit_table self.now }
    {
        self.parts.table()
    }
}
