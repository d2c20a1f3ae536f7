//! Small traces that are drawn from a number: objects that share much, with every kind of assertion, and two collections.
ghost use Rattle.std.specs.Prelude.{◌*◌, ◌<◌, ◌≤◌};

use crate::draws::Draws;
use heap_base::OutOfMemory;
use std::alloc::Global;
use streams::{put, put_number};

const SLOTS: u32 = 3;

const TYPES: u32 = 4;

const ROOTS: u32 = 4;
/// Most slots hold one of so many objects of their round, so that several workers meet these at the same time.
const SHARED: u32 = 3;

const FEWEST_OBJECTS: u32 = 6;

const MOST_OBJECTS: u32 = 40;

/// One trace in so many ends with an object that holds `SPOKES` others: more than a parked worker does in one round, so that the rest is dealt
/// for the next.
const HUBS: u32 = 32;

const SPOKES: u32 = 600;
/// The last spokes are those that are dealt.
const LAST_SPOKES: u32 = 64;

/// A trace with this number.
pub fn trace_of(alloc: Global, number: u64) -> Result<Vec<u8>, OutOfMemory> {
    let mut trace = Trace {
        draws: Draws::from(number),
        text: Vec::new(alloc),
    };
    let objects = FEWEST_OBJECTS + trace.draws.below(MOST_OBJECTS - FEWEST_OBJECTS);
    trace.round(1, objects)?;
    trace.round(1 + objects, objects)?;
    if trace.draws.below(HUBS) == 0 {
        trace.hub(1 + 2 * objects)?;
    }
    Ok(trace.text)
}

// A trace that is being made.
#[derive(Drop)]
struct Trace {
    draws: Draws,
    text: Vec<u8>,
}

impl Trace {
    // Allocates objects with ids from this one on, stores and asserts among them, and collects.
    fn round(&mut self, from: u32, objects: u32) -> Result<(), OutOfMemory>
        requires { (0 < objects) × (objects < MOST_OBJECTS) × (from ≤ MOST_OBJECTS) }
    {
        for at in 0..objects {
            self.alloc(from + at, SLOTS)?;
        }
        for at in 0..objects {
            self.stores(from, objects, from + at)?;
        }
        for _ in 0..1 + self.draws.below(ROOTS) {
            let (root, to) = (self.draws.below(ROOTS), self.drawn(from, objects));
            self.line(
                &[("{\"op\":\"root\",\"to\":", to), (",\"name\":\"r", root)],
                "\"}",
            )?;
        }
        self.assertions(from, objects)?;
        self.line(&[], "{\"op\":\"collect\"}")
    }

    // An object of a round.
    fn drawn(&mut self, from: u32, objects: u32) -> u32
        requires { (0 < objects) × (objects < MOST_OBJECTS) × (from ≤ MOST_OBJECTS) }
    {
        from + self.draws.below(objects)
    }

    // What most slots of an object hold.
    fn stores(&mut self, from: u32, objects: u32, at: u32) -> Result<(), OutOfMemory>
        requires { (0 < objects) × (objects < MOST_OBJECTS) × (from ≤ MOST_OBJECTS) }
    {
        for slot in 0..SLOTS {
            let to = match self.draws.below(4) {
                0 => continue,
                1 => self.drawn(from, objects),
                _ => self.drawn(from, objects.min(SHARED)),
            };
            self.store(at, slot, to)?;
        }
        Ok(())
    }

    // An object that holds many others, each of which holds one of its own. Some of these are asserted unshared.
    fn hub(&mut self, hub: u32) -> Result<(), OutOfMemory>
        requires { hub ≤ 2 * MOST_OBJECTS }
    {
        self.alloc(hub, SPOKES)?;
        for spoke in 0..SPOKES {
            let at = hub + 1 + 2 * spoke;
            self.alloc(at, 1)?;
            self.alloc(at + 1, 0)?;
            self.store(hub, spoke, at)?;
            self.store(at, 0, at + 1)?;
        }
        self.line(&[("{\"op\":\"root\",\"to\":", hub)], ",\"name\":\"hub\"}")?;
        for _ in 0..LAST_SPOKES / 8 {
            let spoke = SPOKES - 1 - self.draws.below(LAST_SPOKES);
            let held = hub + 2 + 2 * spoke;
            self.line(&[("{\"op\":\"assert-unshared\",\"id\":", held)], "}")?;
        }
        self.line(&[], "{\"op\":\"collect\"}")
    }

    fn alloc(&mut self, id: u32, slots: u32) -> Result<(), OutOfMemory> {
        let kind = self.draws.below(TYPES);
        let parts = [
            ("{\"op\":\"alloc\",\"slots\":", slots),
            (",\"id\":", id),
            (",\"type\":\"T", kind),
        ];
        self.line(&parts, "\"}")
    }

    fn store(&mut self, at: u32, slot: u32, to: u32) -> Result<(), OutOfMemory> {
        let parts = [
            ("{\"op\":\"store\",\"at\":", at),
            (",\"slot\":", slot),
            (",\"to\":", to),
        ];
        self.line(&parts, "}")
    }

    fn assertions(&mut self, from: u32, objects: u32) -> Result<(), OutOfMemory>
        requires { (0 < objects) × (objects < MOST_OBJECTS) × (from ≤ MOST_OBJECTS) }
    {
        for _ in 0..self.draws.below(3) {
            let id = self.drawn(from, objects);
            self.line(&[("{\"op\":\"assert-dead\",\"id\":", id)], "}")?;
        }
        for _ in 0..self.draws.below(4) {
            let id = self.drawn(from, objects);
            self.line(&[("{\"op\":\"assert-unshared\",\"id\":", id)], "}")?;
        }
        for _ in 0..self.draws.below(3) {
            let (kind, limit) = (self.draws.below(TYPES), self.draws.below(5));
            let parts = [
                ("{\"op\":\"assert-instances\",\"limit\":", limit),
                (",\"type\":\"T", kind),
            ];
            self.line(&parts, "\"}")?;
        }
        for _ in 0..self.draws.below(8) {
            let (owner, ownee) = (self.drawn(from, objects), self.drawn(from, objects));
            if owner != ownee {
                let parts = [
                    ("{\"op\":\"assert-ownedby\",\"owner\":", owner),
                    (",\"ownee\":", ownee),
                ];
                self.line(&parts, "}")?;
            }
        }
        Ok(())
    }

    // A line of numbers, each after a text, and of what stands at its end.
    fn line(&mut self, parts: &[(&str, u32)], end: &str) -> Result<(), OutOfMemory> {
        for (before, number) in parts {
            put(&mut self.text, before.as_bytes())?;
            put_number(&mut self.text, *number as u64)?;
        }
        put(&mut self.text, end.as_bytes())?;
        put(&mut self.text, b"\n")
    }
}
