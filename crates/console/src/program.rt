ghost use Rattle.std.specs.Prelude.{◌≡◌, ◌⊎◌, IfOk};
ghost use Rattle.std.specs.Process.{exit_status};
ghost use Rattle.console.specs.Numbers.{HasNoWords};

use crate::memory::keep_freed_memory;
use crate::stream::Remembering;
use crate::words::{NoWords, borrowed_words, exit_code_without_words, program_words};
use std::io::{Stderr, Stdin, Stdout};
use std::process::ExitCode;

/// The streams of a program.
#[derive(Drop)]
pub struct Streams<I, O, E> {
    pub input: Remembering<I>,
    pub output: Remembering<O>,
    /// Where a person is told what the output doesn't say.
    pub errors: E,
}

impl<I, O, E> Streams<I, O, E> {
    /// Over this reader and these writers, of which none has failed so far.
    pub fn over(input: I, output: O, errors: E) -> Streams<I, O, E>
        ensures input { (result.input.stream ≡ input) × (result.input.faults ≡ 0) }
        ensures output { (result.output.stream ≡ output) × (result.output.faults ≡ 0) }
    {
        Streams {
            input: Remembering::over(input),
            output: Remembering::over(output),
            errors,
        }
    }
}

/// Runs a program on the words of the command line and the streams of the process, and gives what the process ends with: what the call
/// answers. Where the words can't be had, there is no call.
pub fn run_program<F>(rt: &HostRuntime, name: &str, run: F) -> ExitCode
where
    F: FnOnce(&[&str], &mut Streams<Stdin, Stdout, Stderr>) -> ExitCode,
    requires { (words : _) (streams : _) → F.pre run words streams }
    ensures { ((words : _) × (streams : _) × (left : _) × F.post run words streams result left) ⊎ HasNoWords (exit_status result) }
{
    match answer_to_words(rt, run) {
        Ok(code) => code,
        Err(why) => exit_code_without_words(rt, name, why),
    }
}

fn answer_to_words<F>(rt: &HostRuntime, run: F) -> Result<ExitCode, NoWords>
where
    F: FnOnce(&[&str], &mut Streams<Stdin, Stdout, Stderr>) -> ExitCode,
    requires { (words : _) (streams : _) → F.pre run words streams }
    ensures { IfOk result (λ code. (words : _) × (streams : _) × (left : _) × F.post run words streams code left) }
{
    keep_freed_memory(rt.alloc());
    let owned = program_words(rt)?;
    let words = borrowed_words(rt.alloc(), &owned)?;
    let mut streams = Streams::over(rt.stdin(), rt.stdout(), rt.stderr());
    Ok(run(&words, &mut streams))
}
