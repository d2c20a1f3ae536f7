//! A collection by a trace that was made by hand.
ghost use Rattle.std.specs.Prelude.{◌≡◌, ◌<◌, length, IfOk};
ghost use Rattle.header_rule.specs.Passes.{ArePassesOf};
ghost use Rattle.heap_marking.specs.Traces.{IsTraceOf};
ghost use Rattle.audit_core.specs.Audit.{AreItsRoles, audit_table};

use super::agreements::agrees;
use audit_core::{Auditor, Kit, Traced, trace};
use graph_meaning::{Collection, Event, Roles, Stop};
use header_rule::{Headers, Marks, Pass, Words};
use instance_ledger::Tally;
use object_table::ObjectTable;
use report::collection_text;
use std::alloc::Global;
use std::test::Fail;
use std::thread::Threads;
use steal_pool::OpenGate;
use trace_reader::event_of;

// The words of two cells, of which the first was met once and the second three times.
fn words_by_hand(alloc: Global) -> Result<Words, Fail>
    ensures { IfOk result (λ w. w.cells ≡ 2) }
{
    let (headers, mut passes) = Headers::make(alloc, 2, 1)?;
    meet(&headers, &mut passes, 0);
    for _ in 0..3 {
        meet(&headers, &mut passes, 1);
    }
    Ok(headers.close(passes))
}

// Meets a cell by the first pass, without marks.
fn meet(headers: &Headers, passes: &mut Vec<Pass>, cell: u32)
    requires cell { cell < headers.now.cells }
    requires passes { ArePassesOf headers.now passes.old.items }
    ensures { ArePassesOf headers.now passes.new.items }
{
    let unmarked = Marks {
        found: false,
        disputed: false,
        met_by_roots: false,
    };
    let Some(pass) = passes.get_mut(0) else {
        return;
    };
    if pass.left() > 0 {
        headers.meet(pass, cell, unmarked);
    }
}

fn traced_by_hand(alloc: Global, table: &ObjectTable) -> Result<Traced, Fail>
    requires two { (length table.now.cells ≡ 2) × (length table.now.table.kinds ≡ 2) }
    ensures two { IfOk result (λ t. (t.words.cells ≡ 2) × (length t.instances ≡ 2)) }
{
    let words = words_by_hand(alloc)?;
    let mut tally = Tally::make(alloc, 2)?;
    tally.add(0);
    tally.add(1);
    Ok(Traced::of(alloc, words, &tally, table)?)
}

// Finishes a collection by the trace that was made by hand, which has to agree with the real one.
fn finish(
    auditor: &mut Auditor,
    roles: &Roles,
    made: &Traced,
    real: &Traced,
) -> Result<Collection, Fail>
    requires roles { AreItsRoles auditor.old roles.now }
    requires trace { IsTraceOf (audit_table auditor.old) auditor.old.heap real.now }
    requires made { (made.now.words.cells ≡ 2) × (length made.now.instances ≡ 2) }
    requires real { (real.now.words.cells ≡ 2) × (length real.now.instances ≡ 2) }
{
    if !agrees(made, real) {
        return Err("another trace was to be made".into());
    }
    if auditor.collections() >= 1_000 {
        return Err("too many collections".into());
    }
    Ok(auditor.finish_collect(roles, made)?)
}

fn collect_by_hand<R: Threads + Sync>(
    rt: &R,
    alloc: Global,
    auditor: &mut Auditor,
) -> Result<Collection, Fail> {
    let roles = auditor.start_collect()?;
    let table = auditor.table();
    if table.cells() != 2 || table.kinds() != 2 {
        return Err("two objects of two types were asked for".into());
    }
    let made = traced_by_hand(alloc, table)?;
    let kit = Kit::prepare(alloc, 2, 2, 1)?;
    let real = trace(rt, kit, table, &roles, &OpenGate)?;
    finish(auditor, &roles, &made, &real)
}

// The pair holds the leaf in both its slots.
const PAIR: [&str; 6] = [
    "{\"op\":\"alloc\",\"id\":1,\"type\":\"Pair\",\"slots\":2}",
    "{\"op\":\"alloc\",\"id\":9,\"type\":\"Leaf\",\"slots\":1}",
    "{\"op\":\"root\",\"name\":\"p\",\"to\":1}",
    "{\"op\":\"store\",\"at\":1,\"slot\":0,\"to\":9}",
    "{\"op\":\"store\",\"at\":1,\"slot\":1,\"to\":9}",
    "{\"op\":\"assert-unshared\",\"id\":9}",
];

const COUNTS_OF_THE_TRACE: &str = "gc 1 live 2 traced 2 freed 0
gc 1 unshared 9 Leaf refs 3: root p -> 1 Pair [0] -> 9 Leaf | root p -> 1 Pair [1] -> 9 Leaf
";

const COUNTS_OF_THE_HEAP: &str = "gc 1 live 2 traced 2 freed 0
gc 1 unshared 9 Leaf refs 2: root p -> 1 Pair [0] -> 9 Leaf | root p -> 1 Pair [1] -> 9 Leaf
";

fn apply(auditor: &mut Auditor, event: &Event) -> Result<(), Fail> {
    if let Event::Collect = event {
        return Err("an operation was asked for".into());
    }
    if auditor.apply(event).is_err() {
        return Err("no operation is to be refused".into());
    }
    Ok(())
}

// Applies the operation that a line is.
fn apply_line(alloc: Global, auditor: &mut Auditor, line: &str) -> Result<(), Fail> {
    let Ok(Some(event)) = event_of(alloc, line.as_bytes()) else {
        return Err("each line is to be an operation".into());
    };
    apply(auditor, &event)
}

fn apply_lines(alloc: Global, auditor: &mut Auditor, lines: &[&str]) -> Result<(), Fail> {
    for line in lines {
        apply_line(alloc, auditor, line)?;
    }
    Ok(())
}

// The text of the pair's first collection, by a trace that was made by hand or by a crew. The auditor and the collection stay in memory until
// the test ends: to prove how each of their parts is dropped would cost more than all else here.
fn text_of_the_pair<R: Threads + Sync>(
    rt: &R,
    alloc: Global,
    is_by_hand: bool,
) -> Result<Vec<u8>, Fail> {
    let mut auditor = Auditor::make(alloc, 1, 100, false)?;
    let text = text_of_collection(rt, alloc, &mut auditor, is_by_hand);
    std::mem::forget(auditor);
    text
}

fn text_of_collection<R: Threads + Sync>(
    rt: &R,
    alloc: Global,
    auditor: &mut Auditor,
    is_by_hand: bool,
) -> Result<Vec<u8>, Fail> {
    apply_lines(alloc, auditor, &PAIR)?;
    let collection = if is_by_hand {
        collect_by_hand(rt, alloc, auditor)?
    } else {
        collect_by_crew(rt, auditor)?
    };
    let text = collection_text(alloc, &collection);
    std::mem::forget(collection);
    Ok(text?)
}

fn collect_by_crew<R: Threads + Sync>(rt: &R, auditor: &mut Auditor) -> Result<Collection, Fail> {
    if auditor.collections() >= 1_000 {
        return Err("too many collections".into());
    }
    Ok(auditor.collect(rt, &OpenGate)?)
}

#[test]
fn a_collection_shows_the_counts_of_its_trace(rt: HostRuntime) -> Result<(), Fail> {
    let by_hand = text_of_the_pair(&rt, rt.alloc(), true)?;
    assert_eq!(&rt; by_hand.as_slice(), COUNTS_OF_THE_TRACE.as_bytes());
    let by_crew = text_of_the_pair(&rt, rt.alloc(), false)?;
    assert_eq!(&rt; by_crew.as_slice(), COUNTS_OF_THE_HEAP.as_bytes());
    Ok(())
}
