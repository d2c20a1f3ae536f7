use crate::audited::Audited;
use heap_base::{OutOfMemory, Status};
use std::alloc::Global;
use streams::{put, put_number};

/// What was seen of all audits so far.
#[derive(Drop)]
pub struct Summary {
    /// The order of each.
    orders: Vec<u64>,
    /// In how many of them several workers began tasks.
    shared: u64,
    differing: u64,
    /// A line for each that differs.
    text: Vec<u8>,
}

impl Summary {
    pub fn new(alloc: Global) -> Summary {
        Summary {
            orders: Vec::new(alloc),
            shared: 0,
            differing: 0,
            text: Vec::new(alloc),
        }
    }

    pub fn add(&mut self, number: u64, audited: Audited) -> Result<(), OutOfMemory> {
        self.orders.push(audited.order)?;
        if audited.workers > 1 {
            self.shared = self.shared.saturating_add(1);
        }
        if !audited.is_right {
            self.differing = self.differing.saturating_add(1);
            self.part(b"order ", number)?;
            put(&mut self.text, b" differs\n")?;
        }
        Ok(())
    }

    /// The text of what was seen, and the status.
    pub fn end(mut self) -> Result<(Vec<u8>, Status), OutOfMemory> {
        let orders = self.orders.len() as u64;
        let (unlike, shared, differing) = (self.unlike(), self.shared, self.differing);
        self.part(b"orders ", orders)?;
        self.part(b" unlike ", unlike)?;
        self.part(b" shared ", shared)?;
        self.part(b" differing ", differing)?;
        put(&mut self.text, b"\n")?;
        let status = if differing == 0 {
            Status::Clean
        } else {
            Status::Violated
        };
        Ok((self.text, status))
    }

    // How many orders are unlike each other.
    fn unlike(&mut self) -> u64 {
        self.orders.sort_unstable();
        self.orders.dedup();
        self.orders.len() as u64
    }

    fn part(&mut self, before: &[u8], number: u64) -> Result<(), OutOfMemory> {
        put(&mut self.text, before)?;
        put_number(&mut self.text, number)
    }
}
