//! What lines are read before their turn, and told in it.

use graph_meaning::{Event, Stop};
use std::alloc::Global;
use std::process::Abort;
use std::test::Fail;
use std::thread::Threads;
use trace_reader::{Ahead, EventReader, ParallelReader};

/// So many lines have more bytes than the fewest that are read ahead, and fewer than the most.
const LINES: u32 = 8_000;

/// So many lines, each with its number as a limit.
fn limits(alloc: Global, lines: u32) -> Result<String, Fail> {
    let mut text = String::new(alloc);
    for n in 0..lines {
        text.push_str(&format!(in alloc;
            "{{\"op\":\"assert-instances\",\"type\":\"T\",\"limit\":{n}}}\n"
        )?)?;
    }
    Ok(text)
}

fn expect_limit(rt: &impl Abort, told: &Result<Option<Event>, Stop>, wanted: u32) {
    let told = match told {
        Ok(Some(Event::AssertInstances { limit, .. })) => *limit,
        _ => u32::MAX,
    };
    assert_eq!(rt; told, wanted);
}

/// What stands behind so many bytes.
fn behind(text: &[u8], bytes: usize) -> &[u8] {
    text.get(bytes..).unwrap_or_default()
}

/// The first line, without its newline.
fn first_line(text: &[u8]) -> &[u8] {
    text.split(|b| *b == b'\n').next().unwrap_or_default()
}

/// Lines so far: how many were told, how many of them had been read before their turn, and the bytes behind them.
#[derive(Drop)]
struct Told<'a> {
    lines: u32,
    ahead: u32,
    rest: &'a [u8],
}

impl<'a> Told<'a> {
    /// Takes the lines that were read before their turn, and answers how many bytes they have.
    fn take_ahead(&mut self, rt: &impl Abort, ahead: Ahead<'_>) -> usize {
        let text = behind(ahead.lines.text(), ahead.place);
        assert!(rt; self.rest.starts_with(text));
        let mut bytes = 0usize;
        for line in ahead.lines.lines() {
            if line.from < ahead.place {
                continue;
            }
            assert_eq!(rt; line.from, ahead.place.saturating_add(bytes));
            assert_eq!(rt; line.bytes, first_line(behind(text, bytes)).len());
            expect_limit(rt, &line.told, self.lines);
            self.lines = self.lines.saturating_add(1);
            self.ahead = self.ahead.saturating_add(1);
            bytes = bytes.saturating_add(line.bytes).saturating_add(1);
        }
        self.rest = behind(self.rest, bytes);
        bytes
    }

    /// Has the next line read in its turn.
    fn take_next<R: Threads + Abort>(&mut self, rt: &R, reader: &mut ParallelReader<'_, R>) {
        let line = first_line(self.rest);
        expect_limit(rt, &reader.event_of(line), self.lines);
        self.lines = self.lines.saturating_add(1);
        self.rest = behind(self.rest, line.len().saturating_add(1));
    }
}

/// Reads the lines by so many workers, and answers how many were read before their turn.
fn read_ahead<R: Threads + Abort>(rt: &R, alloc: Global, workers: u32) -> Result<u32, Fail> {
    let text = limits(alloc, LINES)?;
    let mut reader = ParallelReader::make(rt, alloc, workers)?;
    let mut told = Told {
        lines: 0,
        ahead: 0,
        rest: text.as_bytes(),
    };
    for _ in 0..LINES {
        reader.look_ahead(told.rest);
        let bytes = match reader.lines_ahead() {
            Some(ahead) => told.take_ahead(rt, ahead),
            None => 0,
        };
        reader.pass_ahead(bytes);
        if told.rest.is_empty() {
            break;
        }
        if bytes == 0 {
            told.take_next(rt, &mut reader);
        }
    }
    assert_eq!(rt; told.lines, LINES);
    reader.end();
    Ok(told.ahead)
}

/// The caller alone reads ahead what no other thread is at: here each line.
#[test]
fn each_line_is_read_ahead(rt: HostRuntime) -> Result<(), Fail> {
    assert_eq!(&rt; read_ahead(&rt, rt.alloc(), 1)?, LINES);
    Ok(())
}

/// Other threads leave no line out, and tell none twice or as another one.
#[test]
fn each_line_is_told_in_its_turn(rt: HostRuntime) -> Result<(), Fail> {
    for workers in 2..5 {
        assert!(&rt; read_ahead(&rt, rt.alloc(), workers)? > 0);
    }
    Ok(())
}
