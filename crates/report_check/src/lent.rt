//! A report that is lent to a comparison.
ghost use Rattle.std.specs.Prelude.{◌≡◌, ◌<◌, ◌≤◌, length, IfOk};
ghost use Rattle.std.specs.Io.KnownBytes.{ReadConsumes};
ghost use Rattle.streams.specs.Causes.{HasCause};

use std::marker::{Brand, PhantomData};
use streams::{Failed, Source};

/// Which report is compared. Each check picks it.
pub trait Chosen {
    ghost use Rattle.std.specs.Prelude.{List, ℕ, Option};

    /// The bytes that its source had at first, where it tells them.
    ghost whole: { Option (List ℕ) };

    /// The source's count of faults at first.
    ghost faults: { ℕ };

    /// The reference through which the source is read.
    ghost reference: { ℕ };
}

impl Chosen for Brand {
    ghost use Rattle.std.specs.Prelude.{None};

    ghost whole = { None };

    ghost faults = { 0 };

    ghost reference = { 0 };
}

/// The source of the report that was chosen. It knows the reference that it was made of, so that whoever gives it back gives that one back.
#[derive(Drop)]
pub struct Lent<'a, B: Source, J: Chosen> {
    pub source: &'a mut B,
    pub of: PhantomData<J>,
    pub ghost same: { source.ghost_name ≡ J.reference },
}

impl<'a, B: Source, J: Chosen> Source for Lent<'a, B, J> {
    ghost left = { λ l. B.left l.source.now };

    ghost faults = { λ l. B.faults l.source.now };

    fn read(&mut self, into: &mut [u8]) -> Result<usize, Failed> {
        self.source.read(into)
    }
}
