ghost use Rattle.std.specs.Prelude.{ℕ, IfOk};
ghost use Rattle.trace_run.specs.Program.{ProgramMeaning, IsLast};

use crate::taken::LastText;
use heap_base::OutOfMemory;

/// What is made of a trace, event by event. What takes an event is handed to the run beside it, so that it may start
/// threads.
pub trait Program {
    /// The states that a run goes through.
    ghost State: { Type 0 };

    /// What an event leads to in a state, and how the report ends.
    ghost meaning: { ProgramMeaning State };

    /// Where the program stands.
    ghost state: { Self → State };

    /// A count that grows by at most one with each event.
    ghost events: { Self → ℕ };

    /// The last text, where the trace ends here.
    fn last(&self) -> Result<LastText, OutOfMemory>
        ensures { IfOk result (IsLast (meaning.ends (state self.now))) };
}
