//! A sink that compares what it takes with a report.
ghost use Rattle.std.specs.Prelude.{◌≡◌, ◌≢◌, ◌⊎◌, ◌<◌, ◌≤◌, ◌+◌, ◌-◌, ◌^◌, List, ℕ, Err, None, IfOk, IfSome, OnOk, OnErr, [], length, take, slice_get};
ghost use Rattle.std.specs.Io.KnownBytes.{Appends, IsAtEnd};
ghost use Rattle.heap_base.specs.declared.status.Status.TheVariants as answer;
ghost use Rattle.streams.specs.Causes.{HasCause, Rose};
ghost use Rattle.report_check.specs.Comparing.{Holds, TellsDifference, fresh_comparison, taken_bytes};
ghost use Rattle.report_check.specs.declared.comparing.TheConstants.{MOST_PLACES};
ghost use Rattle.report_check.specs.declared.outcome.CheckError.TheVariants.{ReadFault};

use crate::compared::Compared;
use crate::lent::Chosen;
use crate::outcome::CheckError;
use crate::pending::Pending;
use heap_base::Status;
use std::marker::{Model, PhantomData};
use streams::{Failed, Sink, Source};

// No more is compared after so many bytes, since the place could not be told.
const MOST_PLACES: u64 = 1 << 63;

/// A sink that compares what it takes with the report that was chosen. It takes bytes as long as they are equal, and the first byte that is
/// another, and fails from then on.
#[derive(Drop)]
pub(crate) struct Comparing<S: Source, J: Chosen> {
    report: S,
    pending: Pending,
    // how many bytes were equal
    place: u64,
    // the byte behind them that was taken, where the report has another there, or none
    other: Option<u8>,
    // how many writes failed although no read did
    refused: u64,
    of: PhantomData<J>,
}

impl<S: Source, J: Chosen> Model for Comparing<S, J> {
    ghost use Rattle.std.specs.Prelude.{◌≡◌, ◌≤◌, ◌<◌, ◌-◌, ◌^◌};
    ghost use Rattle.report_check.specs.Comparing.{ComparisonState, HasFound};

    ghost Value = { ComparisonState S };

    ghost view = { λ c. record { report = c.report; pending = c.pending; place = c.place; other = c.other; refused = c.refused } };

    ghost invariant = { λ c. HasFound J.whole (S.left c.report) c.pending c.place c.other × (J.faults ≤ S.faults c.report) × (c.place < 2 ^ 64 - 1) };
}

impl<S: Source + Drop, J: Chosen> Comparing<S, J> {
    /// Nothing was compared.
    pub(crate) fn over(report: S, pending: Pending) -> Comparing<S, J>
        requires whole { S.left report ≡ J.whole }
        requires faults { S.faults report ≡ J.faults }
        requires none { pending ≡ [] }
        ensures { result ≡ fresh_comparison report }
    {
        Comparing {
            report,
            pending,
            place: 0,
            other: None,
            refused: 0,
            of: PhantomData,
        }
    }

    /// How the report compares with a text of which the run that answered this status wrote as much as that says.
    pub(crate) fn found(&mut self, status: Status) -> Result<Compared, CheckError>
        requires write_fault { status ≡ answer.WriteFault → Rose J.faults (S.faults self.old.report + self.old.refused) }
        ensures tells { (text : List ℕ) → Holds status (taken_bytes J.whole self.old.place self.old.other) text → IfOk result (TellsDifference J.whole text) }
        ensures cause { result ≡ Err ReadFault → (status ≡ answer.ReadFault) ⊎ Rose J.faults (S.faults self.new.report) }
    {
        if self.other.is_some() {
            return Ok(Compared::Differs(self.place + 1));
        }
        match status {
            Status::Clean | Status::Violated | Status::TraceFault => self.found_at_end(),
            Status::ReadFault => Err(CheckError::ReadFault),
            Status::WriteFault if self.refused == 0 => Err(CheckError::ReadFault),
            _ => Err(CheckError::OutOfMemory),
        }
    }

    // How they compare, where all that was taken is the whole text, and equal.
    fn found_at_end(&mut self) -> Result<Compared, CheckError>
        requires equal { self.old.other ≡ None }
        ensures tells { (text : List ℕ) → IfSome (taken_bytes J.whole self.old.place self.old.other) (λ bytes. bytes ≡ text) → IfOk result (TellsDifference J.whole text) }
        ensures cause { result ≡ Err ReadFault → Rose J.faults (S.faults self.new.report) }
    {
        self.read_ahead()?;
        if self.pending.is_empty() {
            Ok(Compared::Equal)
        } else {
            Ok(Compared::Differs(self.place + 1))
        }
    }

    // Reads more of the report, where all that was read is compared: nothing is pending only at its end.
    fn read_ahead(&mut self) -> Result<(), Failed>
        requires equal { self.old.other ≡ None }
        ensures kept { (self.new.place ≡ self.old.place) × (self.new.other ≡ self.old.other) × (self.new.refused ≡ self.old.refused) }
        ensures at_end { OnOk result (self.new.pending ≡ [] → IsAtEnd (S.left self.new.report)) }
        ensures cause { HasCause (S.faults self.old.report) (S.faults self.new.report) result }
        ensures failed { OnErr result (Rose J.faults (S.faults self.new.report)) }
    {
        if self.pending.is_empty() {
            self.pending.fill(&mut self.report)?;
        }
        Ok(())
    }

    // Compares the front of the piece with what is pending, and answers how many bytes of it are taken.
    fn compare(&mut self, piece: &[u8]) -> usize
        requires equal { self.old.other ≡ None }
        requires at_end { self.old.pending ≡ [] → IsAtEnd (S.left self.old.report) }
        requires some { 0 < length piece.now }
        requires place { self.old.place < MOST_PLACES }
        ensures taken { (0 < result) × (result ≤ length piece.now) }
        ensures appends { Appends (taken_bytes J.whole self.old.place self.old.other) (taken_bytes J.whole self.new.place self.new.other) (take result piece.now) }
        ensures kept { (self.new.report ≡ self.old.report) × (self.new.refused ≡ self.old.refused) }
    {
        if self.pending.is_empty() {
            self.other = Some(piece[0]);
            return 1;
        }
        let ahead = self.pending.bytes();
        let equal = equal_bytes(ahead, piece);
        let both = ahead.len().min(piece.len());
        self.place += equal as u64;
        self.pending.pass(equal);
        if equal < both {
            self.other = Some(piece[equal]);
            return equal + 1;
        }
        equal
    }

    /// The report.
    pub(crate) fn into_report(self) -> S
        ensures { result ≡ self.report }
    {
        self.report
    }
}

impl<S: Source + Drop, J: Chosen> Sink for Comparing<S, J> {
    ghost use Rattle.report_check.specs.Comparing.{taken_bytes};

    ghost held = { λ c. taken_bytes J.whole c.place c.other };

    ghost faults = { λ c. S.faults c.report + c.refused };

    fn write(&mut self, piece: &[u8]) -> Result<usize, Failed> {
        if self.other.is_some() || self.place >= MOST_PLACES {
            self.refused = self.refused.saturating_add(1);
            return Err(Failed);
        }
        self.read_ahead()?;
        Ok(self.compare(piece))
    }
}

// How many bytes the two begin with that are equal.
fn equal_bytes(some: &[u8], others: &[u8]) -> usize
    ensures within { (result ≤ length some.now) × (result ≤ length others.now) }
    ensures equal { take result some.now ≡ take result others.now }
    ensures apart { result < length some.now → result < length others.now → slice_get some.now result ≢ slice_get others.now result }
{
    let mut equal = 0;
    while equal < some.len() && equal < others.len() && some[equal] == others[equal] {
        equal += 1;
    }
    equal
}
