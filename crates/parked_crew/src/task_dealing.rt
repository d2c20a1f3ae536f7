//! What was put in a round is dealt for the next.
ghost use Rattle.std.specs.Prelude.{◌≡◌, ◌<◌, ◌≤◌, [], ◌++◌, length, IfOk};
ghost use Rattle.parked_crew.specs.Shares.{left_in, IsDealt, IsBegun, HasDoneList};
ghost use Rattle.parked_crew.specs.Progress.{to_do, all_left};
ghost use Rattle.std.specs.List.{All};
ghost use Rattle.steal_pool.specs.Lists.{Pairs};

use crate::task_share::JobShare;
use heap_base::OutOfMemory;
use steal_pool::Task;

impl<S, J, G> JobShare<S, J, G> {
    // The tasks that the worker put and did not do.
    fn left(&self) -> &[Task]
        requires { HasDoneList self.now }
        ensures { result.now ≡ left_in self.now }
    {
        &self.out.tasks()[self.done - self.list.len()..]
    }

    // The share at the beginning of the next round, with this list.
    fn begin(&mut self, list: &[Task]) -> Result<(), OutOfMemory>
        ensures { IfOk result (λ _. IsDealt self.old list.now self.new) }
    {
        self.out.clear();
        self.done = 0;
        self.list.clear();
        for task in list {
            self.list.push(*task)?;
        }
        Ok(())
    }
}

/// Puts what all left behind these tasks, in the order of the workers.
pub fn gather<S, J, G>(
    shares: &[JobShare<S, J, G>],
    tasks: &mut Vec<Task>,
) -> Result<(), OutOfMemory>
    requires { All HasDoneList shares.now }
    ensures { IfOk result (λ _. tasks.new.items ≡ tasks.old.items ++ all_left shares.now) }
{
    for share in shares {
        for task in share.left() {
            tasks.push(*task)?;
        }
    }
    Ok(())
}

/// Deals these tasks evenly, in order.
pub fn deal<S, J, G>(shares: &mut [JobShare<S, J, G>], tasks: &[Task]) -> Result<(), OutOfMemory>
    requires { length shares.old ≡ 0 → tasks.now ≡ [] }
    ensures dealt { IfOk result (λ _. Pairs IsBegun shares.old shares.new) }
    ensures tasks { IfOk result (λ _. to_do shares.new ≡ tasks.now) }
{
    if shares.is_empty() {
        return Ok(());
    }
    let count = if shares.len() == 1 {
        tasks.len()
    } else {
        tasks.len().div_ceil(shares.len()).min(tasks.len())
    };
    let (mine, others) = tasks.split_at(count);
    let (head, rest) = shares.split_at_mut(1);
    head[0].begin(mine)?;
    deal(rest, others)
}
