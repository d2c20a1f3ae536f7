//! What the auditor makes of a trace, as a program.
ghost use Rattle.std.specs.Prelude.{◌≡◌};
ghost use Rattle.report.specs.Run.{collection_rules};
ghost use Rattle.trace_run.specs.Audits.{AuditState, audit_meaning, rules_within};
ghost use Rattle.audit_run.specs.Auditors.{auditor_state};

use audit_core::Auditor;
use graph_meaning::React;
use heap_base::{Limits, OutOfMemory};
use std::alloc::Global;
use trace_run::{LastText, Program, end_text_of};

/// An auditor as a program over a trace.
#[derive(Drop)]
pub struct TraceAudit {
    pub alloc: Global,
    pub paths: u32,
    pub react: React,
    pub most: Limits,
    pub auditor: Auditor,
    ghost rules: { auditor.rules ≡ collection_rules (rules_within most paths react) },
}

impl Program for TraceAudit {
    ghost State = { AuditState };

    ghost meaning = { audit_meaning };

    ghost state = { λ p. auditor_state (rules_within p.most p.paths p.react) p.auditor };

    ghost events = { λ p. p.auditor.collections };

    fn last(&self) -> Result<LastText, OutOfMemory> {
        end_text_of(
            self.alloc,
            self.auditor.collections(),
            self.auditor.violations(),
        )
    }
}
