ghost use Rattle.std.specs.Prelude.{◌≡◌, ◌<◌, ◌≤◌, ◌==◌, ◌^◌, Some, None, nat_lt, if◌then◌else◌};
ghost use Rattle.heap_base.specs.declared.limits.TheConstants.{MOST_THREADS};

use crate::limits::MOST_THREADS;
use std::marker::Model;

/// The id of an object: 1 to 4,294,967,295. Contracts see it as that number.
#[derive(Clone, Copy, Debug, PartialEq, Eq, PartialOrd, Ord)]
pub struct ObjId {
    id: u32,
}

impl Model for ObjId {
    ghost use Rattle.std.specs.Prelude.{ℕ, ◌<◌};

    ghost Value = { ℕ };

    ghost view = { λ o. o.id };

    ghost invariant = { λ o. 0 < o.id };

    ghost inverse = { λ n. record { id = n } };
}

impl ObjId {
    /// The id with this number, and `None` exactly at 0.
    pub fn of(n: u32) -> Option<ObjId>
        ensures { result ≡ (if n == 0 then None else Some n) }
    {
        if n == 0 { None } else { Some(ObjId { id: n }) }
    }

    /// The number that `of` was given.
    pub fn number(self) -> u32
        ensures value { result ≡ self }
        ensures positive { 0 < self }
    {
        self.id
    }
}

/// The number of a thread: 0 to 1,023. Contracts see it as that number.
#[derive(Clone, Copy, Debug, PartialEq, Eq, PartialOrd, Ord)]
pub struct ThreadNo {
    number: u32,
}

impl Model for ThreadNo {
    ghost use Rattle.std.specs.Prelude.{ℕ, ◌<◌};
    ghost use Rattle.heap_base.specs.declared.limits.TheConstants.{MOST_THREADS};

    ghost Value = { ℕ };

    ghost view = { λ t. t.number };

    ghost invariant = { λ t. t.number < MOST_THREADS };

    ghost inverse = { λ n. record { number = n } };
}

impl ThreadNo {
    /// The thread with this number, and `None` exactly above 1,023.
    pub fn of(n: u32) -> Option<ThreadNo>
        ensures { result ≡ (if nat_lt n MOST_THREADS then Some n else None) }
    {
        if n < MOST_THREADS {
            Some(ThreadNo { number: n })
        } else {
            None
        }
    }

    /// The number that `of` was given.
    pub fn number(self) -> u32
        ensures value { result ≡ self }
        ensures below { self < MOST_THREADS }
    {
        self.number
    }
}
