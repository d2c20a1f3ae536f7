//! Calls of audit_run that the program makes in another way, or not at all.

use audit_run::{audit, no_read_of_a_generated_trace_fails, the_facts_of_a_run_follow};
use generator::{GenPlan, GenSource};
use heap_base::Status;
use settings::{SettingsError, settings_of};
use std::test::Fail;
use steal_pool::OpenGate;
use streams::MemSink;

const REPORT: &[u8] = b"gc 1 live 1 traced 1 freed 0\n\
    gc 1 unshared 1 T2 refs 2: root main -> 1 T2 | root main -> 1 T2 [2] -> 1 T2\n\
    gc 2 live 1 traced 0 freed 1\n\
    end gcs 2 violations 1\n";

// The plan that words ask for, whose trace is handed in as a source.
#[test]
fn a_trace_is_generated_by_its_plan(rt: HostRuntime) -> Result<(), Fail> {
    let settings = settings_of(rt.alloc(), &["gcaudit", "--gen", "1", "--size", "1"])?;
    let plan = GenPlan { number: 1, size: 1 };
    let asked = (settings.workers, settings.paths, settings.plan);
    assert_eq!(rt; asked, (1, 100, Some(plan)));
    let mut source = GenSource::make(rt.alloc(), plan)?;
    let mut sink = MemSink::make(rt.alloc(), 4096, 4096, &[])?;
    let status = audit(
        &rt,
        rt.alloc(),
        &["gcaudit"],
        &mut source,
        &mut sink,
        &OpenGate,
    );
    assert_eq!(rt; (status, sink.bytes()), (Status::Violated, REPORT));
    Ok(())
}

#[test]
fn refused_words_are_printed(rt: HostRuntime) -> Result<(), Fail> {
    let text = format!(in rt.alloc(); "{}; {}", SettingsError::Usage, SettingsError::OutOfMemory)?;
    assert_eq!(rt;
        text.as_str(),
        "the words of the command line are refused; out of memory"
    );
    Ok(())
}

#[test]
fn the_laws_can_be_called() {
    the_facts_of_a_run_follow();
    no_read_of_a_generated_trace_fails();
}
