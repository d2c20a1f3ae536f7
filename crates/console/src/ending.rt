ghost use Rattle.std.specs.Prelude.{◌≡◌};
ghost use Rattle.std.specs.Process.{exit_status};
ghost use Rattle.console.specs.Numbers.{number_of};

use heap_base::Status;
use std::process::ExitCode;

/// What the process ends with after a run with this status.
pub fn exit_code(status: Status) -> ExitCode
    ensures { exit_status result ≡ number_of status }
{
    ExitCode::from(status as u8)
}
