//! Which lines are read by the way of usual lines. What they are read as is told by the contracts, whichever way they are read.

use std::test::Fail;
use trace_reader::LineReader;

/// Stores and allocs in the usual order, with whatever may differ: blanks, members that name no field, and a field that need not be there.
const USUAL: &str = r#"{"op":"store","at":1,"slot":0,"to":2}
{"op": "store", "at": 1, "slot": 0, "to": 2}
{"op":"store","at":1,"slot":0,"to":null}
{"op":"store","at":4294967295,"slot":4294967295,"to":4294967295,"label":"next"}
{"op":"store","at":1,"slot":0,"to":2,"in":{"at":[1,{"op":2}]},"by":-0.5e1}
{"op":"alloc","id":1,"type":"A","slots":3}
{"op": "alloc", "id": 1, "type": "A", "slots": 3, "thread": 7}
{"op":"alloc","id":1,"type":"A","slots":3,"bytes":64}
{"op":"alloc","id":1,"type":"A","slots":3,"thread":7,"bytes":64,"line":12}
{"op":"alloc","id":1,"type":"\u00e9","slots":0}"#;

/// Lines that are left to the other ways: whatever is refused, is no store and no alloc, or has its fields in another order or twice.
const OTHER: &str = r#"{"op":"store","at":1,"slot":0}
{"op":"store","at":0,"slot":0,"to":2}
{"op":"store","at":1,"slot":0,"to":2,"to":3}
{"op":"store","at":1,"slot":0,"to":2,"x":1,"slot":1}
{"op":"store","slot":0,"at":1,"to":2}
{"op":"store","at":1,"slot":0,"to":2}}
{"op":"store","at":1,"slot":0,"to":2
{"at":1,"slot":0,"to":2,"op":"store"}
{"op":"stork","at":1,"slot":0,"to":2}
{"op":"alloc","id":1,"type":"A"}
{"op":"alloc","id":1,"type":"","slots":3}
{"op":"alloc","id":1,"type":"A","slots":3,"thread":1024}
{"op":"alloc","id":1,"type":"A","slots":3,"x":1e309}
{"op":"assert-dead","id":1}
{"op":"start-region","thread":1}"#;

#[test]
fn stores_and_allocs_in_their_order_are_usual(rt: HostRuntime) -> Result<(), Fail> {
    for (lines, usual) in [(USUAL, true), (OTHER, false)] {
        for line in lines.split('\n') {
            let mut reader = LineReader::make(rt.alloc());
            assert_eq!(rt; reader.reads_as_usual(line)?, usual, "{line}");
        }
    }
    Ok(())
}

const STORE: &str = r#"{"op":"store","at":1,"slot":0,"to":2}"#;

const OTHER_STORE: &str = r#"{"op":"store","to":2,"at":1,"slot":0}"#;

const ALLOC: &str = r#"{"op":"alloc","id":1,"type":"A","slots":3}"#;

const COLLECT: &str = r#"{"op":"collect"}"#;

/// A reader tries a line as a usual one first. Behind a store in another order fifteen stores are not tried; allocs are, and other lines don't
/// count.
#[test]
fn fifteen_lines_are_not_tried_behind_another(rt: HostRuntime) -> Result<(), Fail> {
    let mut reader = LineReader::make(rt.alloc());
    for line in [STORE, OTHER_STORE] {
        assert!(rt; reader.event_of(line.as_bytes()).is_ok());
    }
    for _ in 0..15u32 {
        for (line, usual) in [(ALLOC, true), (COLLECT, false), (STORE, false)] {
            assert_eq!(rt; reader.reads_as_usual(line)?, usual, "{line}");
        }
    }
    for _ in 0..2u32 {
        assert!(rt; reader.reads_as_usual(STORE)?);
    }
    Ok(())
}
