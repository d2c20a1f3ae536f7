ghost use Rattle.std.specs.Process.{exit_status};
ghost use Rattle.console.specs.Numbers.{HasNoWords};

use crate::ending::exit_code;
use heap_base::Status;
use std::alloc::{AllocFailed, Global};
use std::env;
use std::io::{self, ErrorKind};
use std::process::ExitCode;

/// The exit status where the words of the command line can't be had, for another cause than that memory is out. No run
/// ends with it.
const NO_WORDS: u8 = 7;

/// Why a program can't have its words.
#[derive(Clone, Copy, Debug)]
pub(crate) enum NoWords {
    OutOfMemory,
    /// One of them isn't UTF-8.
    NotText,
}

impl From<io::Error> for NoWords {
    fn from(error: io::Error) -> NoWords {
        match error.kind() {
            ErrorKind::OutOfMemory => NoWords::OutOfMemory,
            _ => NoWords::NotText,
        }
    }
}

impl<T: Drop> From<AllocFailed<T>> for NoWords {
    fn from(_refused: AllocFailed<T>) -> NoWords {
        NoWords::OutOfMemory
    }
}

/// The words of the command line, the program's name first.
pub(crate) fn program_words(rt: &HostRuntime) -> Result<Vec<String>, NoWords> {
    let args = env::args(rt)?;
    let mut words = Vec::new(rt.alloc());
    for word in args {
        words.push(word)?;
    }
    Ok(words)
}

/// The same words, borrowed.
pub(crate) fn borrowed_words<'a>(
    alloc: Global,
    owned: &'a [String],
) -> Result<Vec<&'a str>, NoWords> {
    let mut words = Vec::new(alloc);
    for word in owned {
        words.push(word.as_str())?;
    }
    Ok(words)
}

/// What the process ends with where the words of the command line can't be had. A person is told on standard error, but where memory is
/// out, when nothing is written on either stream.
pub(crate) fn exit_code_without_words(rt: &HostRuntime, program: &str, why: NoWords) -> ExitCode
    ensures { HasNoWords (exit_status result) }
{
    match why {
        NoWords::OutOfMemory => exit_code(Status::NoMemory),
        NoWords::NotText => {
            let _ = eprintln!(rt; "{program}: a word of the command line is not UTF-8");
            ExitCode::from(NO_WORDS)
        }
    }
}
