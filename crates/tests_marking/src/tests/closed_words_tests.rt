//! A result of a trace that is made from words closed by hand.
ghost use Rattle.std.specs.Prelude.{◌≡◌, ◌<◌, [], ◌∷◌, length, IfOk};
ghost use Rattle.header_rule.specs.Passes.{ArePassesOf};

use super::traces::{KEPT_ONCE, are_as_wanted, counts_kinds};
use header_rule::{Headers, Marks, Pass, Words};
use heap_marking::Traced;
use instance_ledger::Tally;
use object_table::ObjectTable;
use std::alloc::Global;
use std::process::Abort;
use std::test::Fail;
use tests_support::{SampleHeap, table_of};

const NO_MARKS: Marks = Marks {
    found: false,
    disputed: false,
    met_by_roots: false,
};

// Meets a cell by the first pass.
fn meet(headers: &Headers, passes: &mut Vec<Pass>, cell: u32)
    requires cell { cell < headers.now.cells }
    requires passes { ArePassesOf headers.now passes.old.items }
    ensures { ArePassesOf headers.now passes.new.items }
{
    if let Some(pass) = passes.get_mut(0) {
        if pass.left() > 0 {
            headers.meet(pass, cell, NO_MARKS);
        }
    }
}

// Words that say 1 of the first cell and 3 of the second.
fn words_by_hand(alloc: Global) -> Result<Words, Fail>
    ensures { IfOk result (λ w. w.cells ≡ 2) }
{
    let (headers, mut passes) = Headers::make(alloc, 2, 1)?;
    meet(&headers, &mut passes, 0);
    meet(&headers, &mut passes, 1);
    meet(&headers, &mut passes, 1);
    meet(&headers, &mut passes, 1);
    Ok(headers.close(passes))
}

// One of each of two types.
fn tally_by_hand(alloc: Global) -> Result<Tally, Fail>
    ensures { IfOk result (λ t. t ≡ 1 ∷ 1 ∷ []) }
{
    let mut tally = Tally::make(alloc, 2)?;
    tally.add(0);
    tally.add(1);
    Ok(tally)
}

fn traced_by_hand(alloc: Global, table: &ObjectTable) -> Result<Traced, Fail>
    requires cells { length table.now.cells ≡ 2 }
    requires kinds { length table.now.table.kinds ≡ 2 }
    ensures cells { IfOk result (λ t. t.words.cells ≡ 2) }
    ensures kinds { IfOk result (λ t. length t.instances ≡ 2) }
{
    let words = words_by_hand(alloc)?;
    let tally = tally_by_hand(alloc)?;
    Ok(Traced::of(alloc, words, &tally, table)?)
}

fn check_by_hand<R: Abort>(rt: &R, alloc: Global, table: &ObjectTable) -> Result<(), Fail> {
    if table.cells() != 2 || table.kinds() != 2 {
        return Err("a table of two objects and types was asked for".into());
    }
    let traced = traced_by_hand(alloc, table)?;
    assert!(rt; are_as_wanted(table, &traced, (1, 1, KEPT_ONCE)));
    assert!(rt; are_as_wanted(table, &traced, (9, 9, (3, true, Some(false), false))));
    assert!(rt; counts_kinds(table, &traced, &[1, 1]));
    Ok(())
}

#[test]
fn closed_words_say_what_is_kept(rt: HostRuntime) -> Result<(), Fail> {
    let heap = SampleHeap {
        objects: &[(1, "Pair", 2), (9, "Leaf", 1)],
        stores: &[(1, 0, 9), (1, 1, 9)],
        roots: &[("p", 1)],
        ..SampleHeap::EMPTY
    };
    let table = table_of(rt.alloc(), heap)?;
    check_by_hand(&rt, rt.alloc(), &table)
}
