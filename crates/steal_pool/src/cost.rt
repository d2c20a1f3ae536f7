/// What a thread costs, in tasks that pay for it. What a run does depends on none of it, only how many threads do it.
#[derive(Clone, Copy, Debug)]
pub struct ThreadCost {
    /// A run that may have so many tasks at a worker has a second thread.
    pub second: u64,
    /// So many more pay for each further thread. Where it is 0, each worker has a thread of its own.
    pub further: u64,
    /// A worker offers the others one task in so many of those that it has room for. Where it is 0, it offers as many as it may.
    pub offer: u64,
}

impl ThreadCost {
    /// What a thread costs on a machine of today: to start one and to wait for it costs little beside so many tasks, also where other
    /// programs keep the processors busy. Every slot of a deque is written when it is made, and one stolen task mostly leads on to many.
    pub fn usual() -> ThreadCost {
        ThreadCost {
            second: 1_000,
            further: 16_384,
            offer: 32,
        }
    }

    /// A thread for each worker of every run, and every task is offered, so that a small run goes the way of a large one.
    pub fn none() -> ThreadCost {
        ThreadCost {
            second: 0,
            further: 0,
            offer: 0,
        }
    }
}
