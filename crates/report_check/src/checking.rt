//! What a check makes of a trace, as a program.
ghost use Rattle.std.specs.Prelude.{◌≡◌, ◌<◌, ◌≤◌, ◌+◌, IfOk, OnOk};
ghost use Rattle.heap_base.specs.declared.limits.TheConstants.{LONGEST_TRACE};

use graph_meaning::{Collection, Event, Stop};
use heap_base::{Limits, OutOfMemory};
use heap_parts::HeapParts;
use plain_collection::collect;
use std::alloc::Global;
use trace_run::{Due, LastText, Program, Taken, end_text_of};
use verdict_list::total_with;

/// A heap that follows a trace, and the totals of its collections.
#[derive(Drop)]
pub struct Checking {
    pub alloc: Global,
    /// How many verdicts of a collection carry their paths.
    pub paths: u32,
    pub parts: HeapParts,
    pub collections: u64,
    pub violations: u64,
}

impl Program for Checking {
    ghost use Rattle.graph_meaning.specs.declared.reaction.React.TheVariants.{Report};
    ghost use Rattle.trace_run.specs.Audits.{AuditState, audit_meaning, rules_by};

    ghost State = { AuditState };

    ghost meaning = { audit_meaning };

    ghost state = { λ c. record {
      rules = rules_by c.paths Report;
      heap = c.parts.heap;
      totals = record { collections = c.collections; violations = c.violations };
    } };

    ghost events = { λ c. c.collections };

    fn last(&self) -> Result<LastText, OutOfMemory> {
        end_text_of(self.alloc, self.collections, self.violations)
    }
}

impl Checking {
    ghost use Rattle.graph_meaning.specs.declared.reaction.React.TheVariants.{Report};
    ghost use Rattle.trace_run.specs.Program.{TakesEvent};
    ghost use Rattle.trace_run.specs.Audits.{audit_meaning, behind_next, first_audit_state, next_of, rules_by};
    ghost use Rattle.report_check.specs.States.{checked_state};

    /// At the beginning of a trace.
    pub(crate) fn make(alloc: Global, paths: u32) -> Result<Checking, OutOfMemory>
        ensures first { IfOk result (λ c. checked_state c ≡ first_audit_state (rules_by paths Report)) }
        ensures none { IfOk result (λ c. c.collections ≡ 0) }
    {
        let parts = HeapParts::make(alloc, Limits::usual())?;
        Ok(Checking {
            alloc,
            paths,
            parts,
            collections: 0,
            violations: 0,
        })
    }

    /// Takes an event.
    pub(crate) fn take(&mut self, event: &Event) -> Result<Taken, Stop>
        requires few { self.old.collections < LONGEST_TRACE }
        ensures takes { TakesEvent (audit_meaning.takes (checked_state self.old) event.now) result (checked_state self.new) }
        ensures few { self.new.collections ≤ self.old.collections + 1 }
    {
        match event {
            Event::Collect => match self.make_collection() {
                Ok(collection) => Ok(Taken::GoesOn(Some(Due::Lines(collection)))),
                Err(_) => Err(Stop::OutOfMemory),
            },
            _ => match self.parts.apply(event) {
                Ok(()) => Ok(Taken::GoesOn(None)),
                Err(Stop::Refused(refusal)) => Err(Stop::Refused(refusal)),
                Err(Stop::OutOfMemory) => Err(Stop::OutOfMemory),
            },
        }
    }

    // Makes the next collection.
    fn make_collection(&mut self) -> Result<Collection, OutOfMemory>
        requires few { self.old.collections < LONGEST_TRACE }
        ensures next { IfOk result (λ c. c ≡ next_of (checked_state self.old)) }
        ensures after { OnOk result (checked_state self.new ≡ behind_next (checked_state self.old)) }
        ensures few { self.new.collections ≤ self.old.collections + 1 }
    {
        let number = self.collections + 1;
        let collection = collect(self.alloc, &mut self.parts, self.paths, number)?;
        self.violations = total_with(self.violations, &collection.verdicts)?;
        self.collections = number;
        Ok(collection)
    }
}
