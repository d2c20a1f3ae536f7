//! A job that counts how often it did each cell.
ghost use Rattle.std.specs.Prelude.{◌≡◌, ◌<◌, ◌^◌, IfOk, vec_len};
ghost use Rattle.std.specs.List.{All};
ghost use Rattle.tests_support.specs.CellTasks.{AreFirstTasks};

use heap_base::OutOfMemory;
use std::alloc::Global;
use steal_pool::{FirstTasks, Job, Outbox, Task};

/// Which cells the task of a cell puts.
#[derive(Clone, Copy)]
pub enum Shape {
    /// Each the next one.
    Chain,
    /// Each two, as in a heap's array.
    Tree,
    /// Each the next one up to this cell, from which on each two.
    Opening(u32),
    /// The first all others.
    Fan,
}

/// The cells below `count`, and how one leads to others.
#[derive(Drop)]
pub struct Cells {
    pub count: u32,
    pub shape: Shape,
}

impl Cells {
    // The cells from the one up to the other.
    fn after(&self, cell: u32) -> (u32, u32) {
        match self.shape {
            Shape::Chain => next(cell),
            Shape::Tree => pair(0, cell),
            Shape::Opening(last) if cell < last => next(cell),
            Shape::Opening(last) => pair(last, cell),
            Shape::Fan if cell == 0 => (1, self.count),
            Shape::Fan => (0, 0),
        }
    }
}

// The next cell alone.
fn next(cell: u32) -> (u32, u32) {
    (cell.saturating_add(1), cell.saturating_add(2))
}

// The two cells below this one in a tree with this root.
fn pair(root: u32, cell: u32) -> (u32, u32) {
    let from = cell
        .saturating_sub(root)
        .saturating_mul(2)
        .saturating_add(1)
        .saturating_add(root);
    (from, from.saturating_add(2))
}

/// Counts how often it did each cell.
#[derive(Drop)]
pub struct Counter {
    /// How many tasks it may still put.
    pub room: u32,
    /// How many it may still do.
    pub turns: u64,
    pub seen: Vec<u32>,
}

impl Counter {
    // Counts the cell once more.
    fn count(&mut self, cell: usize)
        ensures { (self.new.room ≡ self.old.room) × (self.new.turns ≡ self.old.turns) }
    {
        if cell < self.seen.len() {
            self.seen[cell] = self.seen[cell].saturating_add(1);
        }
    }
}

impl Job<Cells> for Counter {
    ghost use Rattle.tests_support.specs.CellTasks.{cells_meaning};

    ghost meaning = { cells_meaning (λ s. s.count) (λ j. j.room) (λ j. j.turns) };

    fn room(&self) -> u64 {
        self.room as u64
    }

    fn turns(&self) -> u64 {
        self.turns
    }

    fn work(&mut self, shared: &Cells, task: Task, out: &mut Outbox) {
        self.turns -= 1;
        self.count(task.cell as usize);
        let (from, to) = shared.after(task.cell);
        let to = to.min(shared.count).min(from.saturating_add(self.room));
        for cell in from..to {
            out.put(Task { cell, tag: 0 });
            self.room -= 1;
        }
    }
}

/// A job for each worker, each with room for a task of every cell.
pub fn new_counters(alloc: Global, workers: u32, cells: u32) -> Result<Vec<Counter>, OutOfMemory>
    ensures range { cells < 2 ^ 32 }
    ensures count { IfOk result (λ v. vec_len v ≡ workers) }
    ensures each { IfOk result (λ v. All (λ j. (j.room ≡ cells) × (j.turns ≡ 2 ^ 40)) v.items) }
{
    let mut jobs = Vec::with_capacity(alloc, workers as usize)?;
    for _ in 0..workers {
        jobs.push_reserved(Counter {
            room: cells,
            turns: 1 << 40,
            seen: vec![in alloc; 0u32; cells as usize]?,
        });
    }
    Ok(jobs)
}

// How many first tasks each worker may have.
const MOST_FIRST: u32 = 4;

// Adds the task of the cell, which comes second, for the worker, where there is such a worker and such a cell, and room for it.
fn add_first(first: &mut FirstTasks, workers: u32, cells: u32, at: (u32, u32))
    requires lists { AreFirstTasks workers cells first.old.lists }
    requires room { first.old.room ≡ 4 }
    ensures lists { AreFirstTasks workers cells first.new.lists }
    ensures room { first.new.room ≡ 4 }
{
    let (worker, cell) = at;
    if worker < workers && cell < cells && first.of(worker).len() < MOST_FIRST as usize {
        first.add(worker, Task { cell, tag: 0 });
    }
}

/// The first tasks of these pairs of a worker and a cell, as far as there are such workers and cells.
pub fn first_tasks(
    alloc: Global,
    workers: u32,
    cells: u32,
    firsts: &[(u32, u32)],
) -> Result<FirstTasks, OutOfMemory>
    ensures { IfOk result (λ f. AreFirstTasks workers cells f.lists) }
{
    let mut first = FirstTasks::make(alloc, workers, MOST_FIRST)?;
    for (worker, cell) in firsts {
        add_first(&mut first, workers, cells, (*worker, *cell));
    }
    Ok(first)
}

/// How often all jobs together did the cell.
pub fn times_seen(jobs: &[Counter], cell: usize) -> u64 {
    let mut sum = 0u64;
    for job in jobs {
        if cell < job.seen.len() {
            sum = sum.saturating_add(job.seen[cell] as u64);
        }
    }
    sum
}

/// Whether each cell was done as often.
pub fn are_seen(jobs: &[Counter], cells: u32, times: u64) -> bool {
    for cell in 0..cells {
        if times_seen(jobs, cell as usize) != times {
            return false;
        }
    }
    true
}
