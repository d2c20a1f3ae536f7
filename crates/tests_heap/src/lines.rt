//! Single lines as operations: each operation with all its fields, each refusal in its order, and the memory that a
//! reader keeps from line to line. The tables are texts, each row with what is read and ` => ` and the answer.

use graph_meaning::{Event, Stop};
use heap_base::ObjId;
use std::alloc::Global;
use std::test::Fail;
use trace_reader::LineReader;

fn number_or_zero(id: &Option<ObjId>) -> u32 {
    match id {
        Some(id) => id.number(),
        None => 0,
    }
}

// An operation by its name, the name in it and its numbers, with 0 for no object.
fn parts_of(event: &Event) -> (&str, &str, [u32; 3]) {
    match event {
        // those with a name
        Event::Root { name, to } => ("root", name.as_str(), [number_or_zero(to), 0, 0]),
        Event::AssertInstances { kind, limit } => ("limit", kind.as_str(), [*limit, 0, 0]),
        Event::Alloc {
            id,
            kind,
            slots,
            thread,
        } => (
            "alloc",
            kind.as_str(),
            [id.number(), *slots, thread.number()],
        ),
        // and those without
        Event::Store { at, slot, to } => ("store", "-", [at.number(), *slot, number_or_zero(to)]),
        Event::SetWeak { at, slot, weak } => {
            let name = if *weak { "weak" } else { "strong" };
            (name, "-", [at.number(), *slot, 0])
        }
        Event::AssertDead { id } => ("dead", "-", [id.number(), 0, 0]),
        Event::StartRegion { thread } => ("start", "-", [thread.number(), 0, 0]),
        Event::AssertAllDead { thread } => ("alldead", "-", [thread.number(), 0, 0]),
        Event::AssertUnshared { id } => ("unshared", "-", [id.number(), 0, 0]),
        Event::AssertOwnedBy { owner, ownee } => {
            ("ownedby", "-", [owner.number(), ownee.number(), 0])
        }
        Event::Collect => ("collect", "-", [0, 0, 0]),
    }
}

fn told(alloc: Global, event: &Event) -> Result<String, Fail> {
    let (operation, name, numbers) = parts_of(event);
    Ok(format!(in alloc;
        "{operation} {name} {} {} {}",
        numbers[0], numbers[1], numbers[2]
    )?)
}

// What a reader answers to a line, as a text.
fn answer(alloc: Global, reader: &mut LineReader, line: &[u8]) -> Result<String, Fail> {
    match reader.event_of(line) {
        Ok(Some(event)) => told(alloc, &event),
        Ok(None) => Ok(String::from_str(alloc, "nothing")?),
        Err(Stop::Refused(refusal)) => Ok(format!(in alloc; "{refusal:?}")?),
        Err(Stop::OutOfMemory) => Ok(String::from_str(alloc, "no memory")?),
    }
}

// Whether a reader's answer to a line of the table is the one that stands behind it.
fn is_answer(alloc: Global, reader: &mut LineReader, row: &str) -> Result<bool, Fail> {
    let (line, want) = row.split_once(" => ").ok_or("a row without an answer")?;
    let answer = answer(alloc, reader, line.as_bytes())?;
    Ok(answer.as_str() == want)
}

// The line of an operation with these fields, between a start and an end.
fn line_of(alloc: Global, start: &str, fields: &str, end: &str) -> Result<String, Fail> {
    let mut line = String::from_str(alloc, start)?;
    line.push_str(fields)?;
    line.push_str(end)?;
    Ok(line)
}

// Whether a new reader's answer to the line with the fields of a row is the one that stands behind them.
fn is_answer_with(alloc: Global, start: &str, row: &str, end: &str) -> Result<bool, Fail> {
    let (fields, want) = row.split_once(" => ").ok_or("a row without an answer")?;
    let line = line_of(alloc, start, fields, end)?;
    let answer = answer(alloc, &mut LineReader::make(alloc), line.as_bytes())?;
    Ok(answer.as_str() == want)
}

// How a line may start before the fields of its operation: as a plain object, and as one that only serde_json reads.
const STARTS: [&str; 2] = ["{\"op\":", "{\"op\":[{}],\"op\":"];

// How it may end behind them: at once, and with a value that is passed over.
const ENDS: [&str; 2] = [
    "}",
    ",\"x\":[{\"op\":7,\"id\":0},[],-0,-1.5e-3,1e308,null,{\"at\":{}}]}",
];

fn is_answer_in_each_line(alloc: Global, row: &str) -> Result<bool, Fail> {
    for start in STARTS {
        for end in ENDS {
            if !is_answer_with(alloc, start, row, end)? {
                return Ok(false);
            }
        }
    }
    Ok(true)
}

const OPERATIONS: &str = r#""alloc","id":7,"type":"Order","slots":2,"thread":1 => alloc Order 7 2 1
"alloc","id":1,"type":"A" => alloc A 1 0 0
"alloc","id":4294967295,"type":"A","slots":4294967295,"thread":1023 => alloc A 4294967295 4294967295 1023
"store","at":3,"slot":5,"to":7 => store - 3 5 7
"store","at":4294967295,"slot":4294967295,"to":null => store - 4294967295 4294967295 0
"set-weak","at":3,"slot":5,"weak":true => weak - 3 5 0
"set-weak","at":3,"slot":5,"weak":false => strong - 3 5 0
"set-weak","at":4294967295,"slot":4294967295,"weak":false,"to":null => strong - 4294967295 4294967295 0
"root","name":"a","to":7 => root a 7 0 0
"root","name":"a","to":null => root a 0 0 0
"assert-dead","id":7 => dead - 7 0 0
"start-region","thread":1023 => start - 1023 0 0
"start-region" => start - 0 0 0
"assert-alldead","thread":5 => alldead - 5 0 0
"assert-alldead" => alldead - 0 0 0
"assert-instances","type":"Config","limit":1 => limit Config 1 0 0
"assert-instances","type":"A","limit":4294967295 => limit A 4294967295 0 0
"assert-unshared","id":4294967295 => unshared - 4294967295 0 0
"assert-ownedby","owner":3,"ownee":5 => ownedby - 3 5 0
"collect" => collect - 0 0 0
"set-weak","w\u0065ak":true,"slot":0,"at":1 => weak - 1 0 0
"\u0063ollect" , "thread" : 1024 => collect - 0 0 0
"collect","x":"\u0001","y":{"":[1.5,false]} => collect - 0 0 0
"assert-dead","y":{"":[1.5,false]},"id":7,"z":-1e9 => dead - 7 0 0"#;

#[test]
fn each_operation_is_read(rt: HostRuntime) -> Result<(), Fail> {
    for row in OPERATIONS.split('\n') {
        assert!(rt; is_answer_in_each_line(rt.alloc(), row)?, "{row}");
    }
    Ok(())
}

// The first fault in the order of the operation's fields decides.
const FAULTS: &str = r#"3,"id":0 => BadField(OpField)
true => BadField(OpField)
null => BadField(OpField)
"" => UnknownOp
"sweep","id":0 => UnknownOp
"Collect" => UnknownOp
"weak" => UnknownOp
"set-weak " => UnknownOp
"alloc","slots":-1 => MissingField(IdField)
"alloc","id":0 => BadField(IdField)
"alloc","id":1.0,"type":"" => BadField(IdField)
"alloc","id":4294967296,"type":"A" => BadField(IdField)
"alloc","id":1,"slots":-1 => MissingField(TypeField)
"alloc","id":1,"type":"","slots":-1 => BadField(TypeField)
"alloc","id":1,"type":"A","thread":-1,"slots":-1 => BadField(SlotsField)
"alloc","id":1,"type":"A","slots":null => BadField(SlotsField)
"alloc","id":1,"type":"A","thread":1024 => BadField(ThreadField)
"store","slot":-1 => MissingField(AtField)
"store","at":0,"slot":-1 => BadField(AtField)
"store","at":1,"to":0 => MissingField(SlotField)
"store","at":1,"slot":-1 => BadField(SlotField)
"store","at":1,"slot":-0,"to":null => BadField(SlotField)
"store","at":1,"slot":0 => MissingField(ToField)
"store","at":1,"slot":0,"to":0 => BadField(ToField)
"store","at":1,"slot":0,"to":false => BadField(ToField)
"set-weak" => MissingField(AtField)
"set-weak","slot":0,"weak":true => MissingField(AtField)
"set-weak","at":0,"slot":-1,"weak":1 => BadField(AtField)
"set-weak","at":4294967296,"slot":0,"weak":true => BadField(AtField)
"set-weak","at":null,"slot":0,"weak":true => BadField(AtField)
"set-weak","at":true,"slot":0,"weak":true => BadField(AtField)
"set-weak","weak":1,"at":1 => MissingField(SlotField)
"set-weak","weak":1,"slot":-1,"at":1 => BadField(SlotField)
"set-weak","slot":-1,"at":1 => BadField(SlotField)
"set-weak","at":1,"slot":4294967296,"weak":true => BadField(SlotField)
"set-weak","at":1,"slot":null,"weak":true => BadField(SlotField)
"set-weak","at":1,"slot":false,"weak":true => BadField(SlotField)
"set-weak","at":1,"slot":0 => MissingField(WeakField)
"set-weak","at":1,"slot":0,"weak":1 => BadField(WeakField)
"set-weak","at":1,"slot":0,"weak":0 => BadField(WeakField)
"set-weak","at":1,"slot":0,"weak":"true" => BadField(WeakField)
"set-weak","at":1,"slot":0,"weak":null => BadField(WeakField)
"set-weak","at":1,"slot":0,"weak":[true] => BadField(WeakField)
"set-weak","at":1,"slot":0,"weak":True => NotJson
"root","to":0 => MissingField(NameField)
"root","name":7,"to":0 => BadField(NameField)
"root","name":true,"to":null => BadField(NameField)
"root","name":"a\u0001","to":null => BadField(NameField)
"root","name":"a","to":0 => BadField(ToField)
"assert-dead" => MissingField(IdField)
"assert-dead","id":null => BadField(IdField)
"assert-dead","id":true => BadField(IdField)
"assert-dead","id":1e2 => BadField(IdField)
"assert-dead","id":18446744073709551616 => BadField(IdField)
"assert-dead","id":01 => NotJson
"start-region","thread":null => BadField(ThreadField)
"assert-alldead","thread":1024 => BadField(ThreadField)
"assert-instances","limit":-1 => MissingField(TypeField)
"assert-instances","type":1,"limit":-1 => BadField(TypeField)
"assert-instances","type":"A" => MissingField(LimitField)
"assert-instances","type":"A","limit":-1 => BadField(LimitField)
"assert-unshared","id":"1" => BadField(IdField)
"assert-ownedby","ownee":0 => MissingField(OwnerField)
"assert-ownedby","owner":0 => BadField(OwnerField)
"assert-ownedby","owner":1 => MissingField(OwneeField)
"assert-ownedby","owner":1,"ownee":0 => BadField(OwneeField)
"collect","x":"\ud800" => NotJson
"collect","x":"\udc00\ud800" => NotJson"#;

#[test]
fn the_first_fault_decides(rt: HostRuntime) -> Result<(), Fail> {
    for row in FAULTS.split('\n') {
        assert!(rt; is_answer_in_each_line(rt.alloc(), row)?, "{row}");
    }
    Ok(())
}

// Lines that one reader reads in turn.
const LINES: &str = r#"{"op":"collect"} => collect - 0 0 0
{"\u006fp":"\u0063ollect","x":"\u00e9\n"} => collect - 0 0 0
{"op":"assert-dead","id": => NotJson
{"op":"assert-dead","id":7} => dead - 7 0 0
{"a":1,"b":2,"c":3,"d":4,"e":5,"f":6,"g":7,"h":8,"op":"collect"} => collect - 0 0 0
{"a":[[[1]]],"id":7,"op":"assert-dead"} => dead - 7 0 0
{"thread":0,"slots":3,"type":"A","id":1,"op":"alloc"} => alloc A 1 3 0
{"op":"collect","x":1e309} => NotJson
{"op":"collect","x":[{"y":-1e309}]} => NotJson
{"op":"collect","x":[1,]} => NotJson
{"op":"collect","x":{"y"}} => NotJson
{"op":"collect","x":[1} => NotJson
{"op":"collect"}} => NotJson
{"op":"collect"}{} => NotJson
{"op":"collect" => NotJson
{} => MissingField(OpField)
[1] => NotObject
"op" => NotObject
7 => NotObject
null => NotObject
 => nothing
   => nothing
  {  "op"  : "collect" }   => collect - 0 0 0
{"op":"collect"} => collect - 0 0 0"#;

#[test]
fn a_reader_goes_on_from_line_to_line(rt: HostRuntime) -> Result<(), Fail> {
    let mut reader = LineReader::make(rt.alloc());
    for row in LINES.split('\n') {
        assert!(rt; is_answer(rt.alloc(), &mut reader, row)?, "{row}");
    }
    Ok(())
}

fn answers(alloc: Global, line: &[u8], want: &str) -> Result<bool, Fail> {
    let answer = answer(alloc, &mut LineReader::make(alloc), line)?;
    Ok(answer.as_str() == want)
}

#[test]
fn bytes_that_are_no_text_are_refused(rt: HostRuntime) -> Result<(), Fail> {
    let lines: [&[u8]; 8] = [
        b"{\"op\":\"collect\",\"x\":\"\xff\"}",
        b"{\"op\":\"collect\",\"x\":\"\xed\xa0\x80\"}",
        b"\xef\xbb\xbf{\"op\":\"collect\"}",
        b"\0",
        b"{\"op\":\"collect\"}\0",
        b"{\"op\":\"root\",\"name\":\"a\x01\",\"to\":null}",
        b"\x0b",
        b"\t{\"op\":\"collect\"}\x0c",
    ];
    for line in lines {
        assert!(rt; answers(rt.alloc(), line, "NotJson")?, "{line:?}");
    }
    assert!(rt; answers(rt.alloc(), b" \t \r", "nothing")?);
    assert!(rt; answers(rt.alloc(), b"\t{\"op\":\"collect\"} \r", "collect - 0 0 0")?);
    Ok(())
}

// An operation with a field in which arrays nest.
fn nested(alloc: Global, arrays: usize) -> Result<String, Fail> {
    let mut line = String::from_str(alloc, "{\"op\":\"collect\",\"x\":")?;
    line.push_str("[".repeat(alloc, arrays)?.as_str())?;
    line.push_str("]".repeat(alloc, arrays)?.as_str())?;
    line.push_str("}")?;
    Ok(line)
}

#[test]
fn values_nest_101_levels_and_not_201(rt: HostRuntime) -> Result<(), Fail> {
    let line = nested(rt.alloc(), 100)?;
    assert!(rt; answers(rt.alloc(), line.as_bytes(), "collect - 0 0 0")?);
    let line = nested(rt.alloc(), 200)?;
    assert!(rt; answers(rt.alloc(), line.as_bytes(), "NotJson")?);
    Ok(())
}

// The function for a line alone answers what a reader does.
#[test]
fn a_line_alone_is_read(rt: HostRuntime) -> Result<(), Fail> {
    let event = trace_reader::event_of(rt.alloc(), b"{\"op\":\"assert-dead\",\"id\":7}")?;
    let event = event.ok_or("no operation")?;
    assert_eq!(rt; told(rt.alloc(), &event)?.as_str(), "dead - 7 0 0");
    Ok(())
}
