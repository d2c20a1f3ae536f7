//! Audits of small traces in orders of the workers' steps that are drawn, each compared with the report that is defined.

use crate::audited::{Audited, audit_in_order};
use crate::host::Host;
use crate::summary::Summary;
use heap_base::{OutOfMemory, Status};
use settings::number_by;
use std::sync::Wait;
use std::thread::Threads;
use streams::{Sink, put_all};

const MOST_ORDERS: u32 = 10_000_000;

/// Audits `count` traces, from that with the number `first` on, and writes a line for each whose report isn't the one that is defined, and last a
/// line that counts. The status is `Violated` where there is such a report.
pub fn run_orders<'a, R: Threads + Wait + Clone + Drop + Send + Sync + 'static, K: Sink>(
    host: &Host<'a, R>,
    first: &str,
    count: &str,
    sink: &mut K,
) -> Status {
    let (Some(first), Some(count)) = (
        number_by(first, 0, u32::MAX),
        number_by(count, 1, MOST_ORDERS),
    ) else {
        return Status::Usage;
    };
    match summary_of(host, first as u64, count as u64) {
        Ok((text, status)) => match put_all(sink, &text) {
            Ok(()) => status,
            Err(_) => Status::WriteFault,
        },
        Err(OutOfMemory) => Status::NoMemory,
    }
}

fn summary_of<'a, R: Threads + Wait + Clone + Drop + Send + Sync + 'static>(
    host: &Host<'a, R>,
    first: u64,
    count: u64,
) -> Result<(Vec<u8>, Status), OutOfMemory> {
    let mut summary = Summary::new(host.alloc);
    for number in first..first.saturating_add(count) {
        let audited: Audited = audit_in_order(host, number)?;
        summary.add(number, audited)?;
    }
    summary.end()
}
