ghost use Rattle.std.specs.Prelude.{◌≡◌, ◌++◌, OnOk, codes, decimal};
ghost use Rattle.std.specs.List.{flat_map};
ghost use Rattle.report.specs.Text.{cleared_line, gc_text, gone_text, object_text, paths_text, summary_line, verdict_head, verdict_line, verdict_text};

use crate::parts::put_object;
use crate::paths::{put_both, put_shown};
use graph_meaning::{Collection, Verdict, VerdictList};
use heap_base::{Name, OutOfMemory};
use streams::{put, put_name, put_number};

/// Appends the line that sums a collection up.
#[tactic(auto, unfolding(crate::specs::Text::summary_line))]
pub(crate) fn put_summary(text: &mut Vec<u8>, collection: &Collection) -> Result<(), OutOfMemory>
    ensures { OnOk result (text.new.items ≡ text.old.items ++ summary_line collection.now) }
{
    put_gc(text, collection.number)?;
    put(text, b"live ")?;
    put_number(text, collection.live as u64)?;
    put(text, b" traced ")?;
    put_number(text, collection.traced as u64)?;
    put(text, b" freed ")?;
    put_number(text, collection.freed as u64)?;
    put(text, b"\n")
}

/// Appends a line for each verdict of the collection with this number.
pub(crate) fn put_verdicts(
    text: &mut Vec<u8>,
    number: u64,
    verdicts: &VerdictList,
) -> Result<(), OutOfMemory>
    ensures { OnOk result
        (text.new.items ≡ text.old.items ++ flat_map (verdict_line number) verdicts.now) }
{
    for place in 0..verdicts.len() {
        put_line(text, number, verdicts.at(place))?;
    }
    Ok(())
}

/// Appends the line that says how much was cleared, where anything was.
#[tactic(auto, unfolding(crate::specs::Text::cleared_line))]
pub(crate) fn put_cleared(text: &mut Vec<u8>, collection: &Collection) -> Result<(), OutOfMemory>
    ensures { OnOk result (text.new.items ≡ text.old.items ++ cleared_line collection.now) }
{
    if collection.cleared == 0 {
        return Ok(());
    }
    put_gc(text, collection.number)?;
    put(text, b"cleared ")?;
    put_number(text, collection.cleared as u64)?;
    put(text, b"\n")
}

/// Appends the line of a verdict of the collection with this number.
#[tactic(auto, unfolding(crate::specs::Text::verdict_line))]
pub(crate) fn put_line(
    text: &mut Vec<u8>,
    number: u64,
    verdict: &Verdict,
) -> Result<(), OutOfMemory>
    ensures { OnOk result (text.new.items ≡ text.old.items ++ verdict_line number verdict.now) }
{
    put_gc(text, number)?;
    put_verdict(text, verdict)?;
    put(text, b"\n")
}

/// Appends how each line of a collection begins.
fn put_gc(text: &mut Vec<u8>, number: u64) -> Result<(), OutOfMemory>
    ensures { OnOk result (text.new.items ≡ text.old.items ++ gc_text number) }
{
    put(text, b"gc ")?;
    put_number(text, number)?;
    put(text, b" ")
}

fn put_verdict(text: &mut Vec<u8>, verdict: &Verdict) -> Result<(), OutOfMemory>
    ensures { OnOk result (text.new.items ≡ text.old.items ++ verdict_text verdict.now) }
{
    put_head(text, verdict)?;
    put(text, b": ")?;
    put_paths(text, verdict)
}

/// Appends what a verdict says before its paths.
fn put_head(text: &mut Vec<u8>, verdict: &Verdict) -> Result<(), OutOfMemory>
    ensures { OnOk result (text.new.items ≡ text.old.items ++ verdict_head verdict.now) }
{
    match verdict {
        Verdict::Dead { id, kind, .. } => put_with_object(text, b"dead ", *id, kind),
        Verdict::Instances {
            kind,
            limit,
            found,
            ..
        } => put_over_limit(text, kind, *limit, *found),
        Verdict::Unshared { id, kind, refs, .. } => put_shared(text, *id, kind, *refs),
        Verdict::OwnedBy {
            id,
            kind,
            owner,
            gone,
            ..
        } => {
            put_with_object(text, b"ownedby ", *id, kind)?;
            put_owner(text, *owner, *gone)
        }
    }
}

fn put_paths(text: &mut Vec<u8>, verdict: &Verdict) -> Result<(), OutOfMemory>
    ensures { OnOk result (text.new.items ≡ text.old.items ++ paths_text verdict.now) }
{
    match verdict {
        Verdict::Dead { path, .. } => put_shown(text, path),
        Verdict::Instances { path, .. } => put_shown(text, path),
        Verdict::Unshared { first, second, .. } => put_both(text, first, second),
        Verdict::OwnedBy { path, .. } => put_shown(text, path),
    }
}

/// Appends a word and an object.
fn put_with_object(text: &mut Vec<u8>, word: &[u8], id: u32, kind: &Name) -> Result<(), OutOfMemory>
    ensures { OnOk result (text.new.items ≡ text.old.items ++ word.now ++ object_text id kind.now) }
{
    put(text, word)?;
    put_object(text, id, kind)
}

/// Appends a type with its limit, and how many of its objects were found.
fn put_over_limit(
    text: &mut Vec<u8>,
    kind: &Name,
    limit: u32,
    found: u32,
) -> Result<(), OutOfMemory>
    ensures { OnOk result
        (text.new.items ≡ text.old.items ++ codes "instances " ++ kind.now ++ codes " limit " ++ decimal limit ++ codes " found " ++ decimal found) }
{
    put(text, b"instances ")?;
    put_name(text, kind)?;
    put(text, b" limit ")?;
    put_number(text, limit as u64)?;
    put(text, b" found ")?;
    put_number(text, found as u64)
}

/// Appends an object that was to be unshared, and how many references it has.
fn put_shared(text: &mut Vec<u8>, id: u32, kind: &Name, refs: u64) -> Result<(), OutOfMemory>
    ensures { OnOk result
        (text.new.items ≡ text.old.items ++ codes "unshared " ++ object_text id kind.now ++ codes " refs " ++ decimal refs) }
{
    put_with_object(text, b"unshared ", id, kind)?;
    put(text, b" refs ")?;
    put_number(text, refs)
}

fn put_owner(text: &mut Vec<u8>, owner: u32, gone: bool) -> Result<(), OutOfMemory>
    ensures { OnOk result (text.new.items ≡ text.old.items ++ codes " owner " ++ decimal owner ++ gone_text gone) }
{
    put(text, b" owner ")?;
    put_number(text, owner as u64)?;
    put_gone(text, gone)
}

fn put_gone(text: &mut Vec<u8>, gone: bool) -> Result<(), OutOfMemory>
    ensures { OnOk result (text.new.items ≡ text.old.items ++ gone_text gone) }
{
    if gone { put(text, b" gone") } else { Ok(()) }
}
