ghost use Rattle.std.specs.Prelude.{◌≡◌, ◌<◌, ◌≤◌, ◌-◌, ◌++◌, ◌||◌, [], length, min, not, nat_le, is_ok, take, drop, Some, IfOk, OnOk, OnErr};
ghost use Rattle.std.specs.Io.KnownBytes.{ReadConsumes, WriteAppends};
ghost use Rattle.streams.specs.Causes.{HasCause};
ghost use Rattle.streams.specs.Counts.{one_more, is_listed};

use crate::failed::Failed;
use crate::sink::Sink;
use crate::source::Source;
use heap_base::OutOfMemory;
use std::alloc::Global;
use std::marker::Model;

/// The calls so far, counted from 1, and the numbers of those that fail.
#[derive(Debug, Drop)]
struct Calls {
    fails: Vec<u64>,
    made: u64,
    faults: u64,
}

impl Calls {
    fn make(alloc: Global, fails: &[u64]) -> Result<Calls, OutOfMemory>
        ensures fails { IfOk result (λ c. c.fails.items ≡ fails.now) }
        ensures made { IfOk result (λ c. c.made ≡ 0) }
        ensures faults { IfOk result (λ c. c.faults ≡ 0) }
    {
        let fails = fails.to_vec(alloc)?;
        Ok(Calls {
            fails,
            made: 0,
            faults: 0,
        })
    }

    /// Counts a call, and says whether it fails by its number.
    fn next_fails(&mut self) -> bool
        ensures answer { result ≡ is_listed self.old.fails.items self.new.made }
        ensures counted { self.new ≡ record self.old { made = one_more self.old.made } }
    {
        self.made = self.made.saturating_add(1);
        self.fails.contains(&self.made)
    }

    /// Counts a fault, and gives its error.
    fn fault(&mut self) -> Failed
        ensures { self.new ≡ record self.old { faults = one_more self.old.faults } }
    {
        self.faults = self.faults.saturating_add(1);
        Failed
    }
}

/// A source in memory, which tells the bytes that are left. A read gives at most a piece of them, and the reads
/// whose numbers, from 1, were named to `make` fail. The numbers stand still at 2^64 - 1.
#[derive(Debug, Drop)]
pub struct MemSource {
    bytes: Vec<u8>,
    begin: usize,
    piece: u32,
    calls: Calls,
}

impl Model for MemSource {
    ghost use Rattle.std.specs.Prelude.{◌<◌, ◌≤◌, drop, vec_len};
    ghost use Rattle.streams.specs.Memory.{MemoryReads};

    ghost Value = { MemoryReads };

    ghost view = { λ s. record {
      left = drop s.begin s.bytes.items;
      piece = s.piece;
      fails = s.calls.fails.items;
      calls = s.calls.made;
      faults = s.calls.faults;
    } };

    ghost invariant = { λ s. (s.begin ≤ vec_len s.bytes) × (0 < s.piece) };
}

impl MemSource {
    /// The source of these bytes. A read gives at most `piece` of them, and the reads with the numbers in
    /// `fails` fail.
    pub fn make(
        alloc: Global,
        bytes: &[u8],
        piece: u32,
        fails: &[u64],
    ) -> Result<MemSource, OutOfMemory>
        requires { 0 < piece }
        ensures { IfOk result (λ s. s ≡ record {
          left = bytes.now;
          piece = piece;
          fails = fails.now;
          calls = 0;
          faults = 0;
        }) }
    {
        let bytes = bytes.to_vec(alloc)?;
        let calls = Calls::make(alloc, fails)?;
        Ok(MemSource {
            bytes,
            begin: 0,
            piece,
            calls,
        })
    }
}

impl Source for MemSource {
    ghost left = { λ s. Some s.left };

    ghost faults = { λ s. s.faults };

    fn read(&mut self, into: &mut [u8]) -> Result<usize, Failed>
        requires { 0 < length into.old }
        ensures bound { IfOk result (λ n. n ≤ length into.old) }
        ensures bytes { ReadConsumes (Some self.old.left) (Some self.new.left) result into.new }
        ensures cause { HasCause self.old.faults self.new.faults result }

        // Exactly the calls that were named fail, and then nothing but the counts changes.
        ensures fails { is_ok result ≡ not (is_listed self.old.fails (one_more self.old.calls)) }
        ensures failed { OnErr result (self.new ≡ record self.old {
          calls = one_more self.old.calls;
          faults = one_more self.old.faults;
        }) }
        ensures kept { OnErr result (into.new ≡ into.old) }

        // Any other call gives as many bytes as the piece, the buffer and the bytes left allow.
        ensures count { IfOk result (λ n. n ≡ min self.old.piece (min (length into.old) (length self.old.left))) }
        ensures given { IfOk result (λ n. into.new ≡ take n self.old.left ++ drop n into.old) }
        ensures rest { IfOk result (λ n. self.new ≡ record self.old {
          left = drop n self.old.left;
          calls = one_more self.old.calls;
        }) }
    {
        if self.calls.next_fails() {
            return Err(self.calls.fault());
        }
        let left = &self.bytes[self.begin..];
        let n = (self.piece as usize).min(into.len()).min(left.len());
        into[..n].copy_from_slice(&left[..n]);
        self.begin += n;
        Ok(n)
    }
}

/// A sink in memory, which tells the bytes that it holds. A write takes at most a piece. The writes whose
/// numbers, from 1, were named to `make` fail, and so does each write once the room is full. The numbers stand
/// still at 2^64 - 1.
#[derive(Debug, Drop)]
pub struct MemSink {
    held: Vec<u8>,
    room: u32,
    piece: u32,
    calls: Calls,
}

impl Model for MemSink {
    ghost use Rattle.std.specs.Prelude.{◌<◌, ◌≤◌, vec_len, vec_capacity};
    ghost use Rattle.streams.specs.Memory.{MemoryWrites};

    ghost Value = { MemoryWrites };

    ghost view = { λ s. record {
      held = s.held.items;
      room = s.room;
      piece = s.piece;
      fails = s.calls.fails.items;
      calls = s.calls.made;
      faults = s.calls.faults;
    } };

    ghost invariant = { λ s. (vec_len s.held ≤ s.room) × (s.room ≤ vec_capacity s.held) × (0 < s.piece) };
}

impl MemSink {
    /// An empty sink with room for `room` bytes. A write takes at most `piece` bytes, and the writes with the
    /// numbers in `fails` fail. All the memory that the sink ever needs is taken here.
    pub fn make(alloc: Global, room: u32, piece: u32, fails: &[u64]) -> Result<MemSink, OutOfMemory>
        requires { 0 < piece }
        ensures { IfOk result (λ s. s ≡ record {
          held = [];
          room = room;
          piece = piece;
          fails = fails.now;
          calls = 0;
          faults = 0;
        }) }
    {
        let held = Vec::with_capacity(alloc, room as usize)?;
        let calls = Calls::make(alloc, fails)?;
        Ok(MemSink {
            held,
            room,
            piece,
            calls,
        })
    }

    /// The bytes that it holds.
    pub fn bytes(&self) -> &[u8]
        ensures held { result.now ≡ self.now.held }
        ensures within { length result.now ≤ self.now.room }
    {
        self.held.as_slice()
    }
}

impl Sink for MemSink {
    ghost held = { λ s. Some s.held };

    ghost faults = { λ s. s.faults };

    fn write(&mut self, piece: &[u8]) -> Result<usize, Failed>
        requires { 0 < length piece.now }
        ensures bound { IfOk result (λ n. (0 < n) × (n ≤ length piece.now)) }
        ensures bytes { WriteAppends (Some self.old.held) (Some self.new.held) result piece.now }
        ensures cause { HasCause self.old.faults self.new.faults result }

        // Exactly the calls that were named and those on a full sink fail, and then nothing but the counts changes.
        ensures fails { is_ok result ≡ not (is_listed self.old.fails (one_more self.old.calls)
            || nat_le self.old.room (length self.old.held)) }
        ensures failed { OnErr result (self.new ≡ record self.old {
          calls = one_more self.old.calls;
          faults = one_more self.old.faults;
        }) }

        // Any other call takes as many bytes as the piece, what it is handed and the room left allow.
        ensures count { IfOk result (λ n. n ≡ min self.old.piece
            (min (length piece.now) (self.old.room - length self.old.held))) }
        ensures taken { IfOk result (λ n. self.new ≡ record self.old {
          held = self.old.held ++ take n piece.now;
          calls = one_more self.old.calls;
        }) }
    {
        let room_left = self.room as usize - self.held.len();
        if self.calls.next_fails() || room_left == 0 {
            return Err(self.calls.fault());
        }
        let n = (self.piece as usize).min(piece.len()).min(room_left);
        match self.held.extend_from_slice(&piece[..n]) {
            Ok(()) => Ok(n),
            Err(_) => unreachable!(),
        }
    }
}
