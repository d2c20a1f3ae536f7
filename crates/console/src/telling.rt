ghost use Rattle.std.specs.Prelude.{◌≡◌};
ghost use Rattle.std.specs.Process.{exit_status};
ghost use Rattle.console.specs.Numbers.{number_of};

use crate::ending::exit_code;
use crate::last::LastBytes;
use crate::options::{Options, first_fault};
use crate::program::Streams;
use heap_base::Status;
use std::alloc::Global;
use std::io;
use std::process::ExitCode;

/// A program as a person sees it who has run it.
#[derive(Clone, Copy)]
pub struct Program {
    pub name: &'static str,
    pub takes: Arguments,
    /// What becomes of the output where a read failed.
    pub unread: &'static str,
    /// What becomes of it where a write failed or memory is out.
    pub cut_short: &'static str,
    /// What a person is told where the heap is too large, if another program takes larger ones.
    pub larger: Option<LargerHeaps>,
}

/// By which ends of the output it is seen that the heap is too large, each of at most 16 bytes, and what a person is told then.
#[derive(Clone, Copy)]
pub struct LargerHeaps {
    pub ends: &'static [&'static str],
    pub advice: &'static str,
}

/// The arguments that a program takes, as it tells them to a person.
#[derive(Clone, Copy)]
pub enum Arguments {
    Nothing,
    /// One of several, as a sentence names them.
    One(&'static str),
    Options(Options),
}

impl Program {
    /// A program that writes a report as it goes.
    pub fn of_report(name: &'static str, takes: Arguments) -> Program {
        Program {
            name,
            takes,
            unread: "the report ends where the reading ended",
            cut_short: "the report is cut short",
            larger: None,
        }
    }

    /// What the process ends with after a run on these words with this status. A person is told on `errors` what the output doesn't say.
    pub fn end<I, O, E: Eprint>(
        self,
        alloc: Global,
        words: &[&str],
        streams: &Streams<I, O, E>,
        status: Status,
    ) -> ExitCode
        ensures { exit_status result ≡ number_of status }
    {
        let Streams {
            input,
            output,
            errors,
        } = streams;
        match status {
            Status::Usage => self.tell_refused(alloc, errors, words),
            Status::TraceFault => self.tell_larger(errors, &output.last),
            _ => self.tell_failed(errors, status, input.why, output.why),
        }
        exit_code(status)
    }

    // Tells which of the words is refused.
    fn tell_refused<E: Eprint>(self, alloc: Global, errors: &E, words: &[&str]) {
        let name = self.name;
        let _ = match self.takes {
            Arguments::Nothing => match words.get(1) {
                Some(word) => eprintln!(errors; "{name}: it takes no words, and there is '{word}'"),
                None => eprintln!(errors; "{name}: there is no name of the program"),
            },
            Arguments::One(choices) => eprintln!(errors; "{name}: one word is taken, {choices}"),
            Arguments::Options(options) => match first_fault(alloc, options.rules, words) {
                Some(fault) => eprintln!(errors; "{name}: {fault}; --help lists the options"),
                None => {
                    let together = options.together;
                    eprintln!(errors; "{name}: {together}; --help lists the options")
                }
            },
        };
    }

    // Tells who takes larger heaps, where the output ends with a refusal of one that is too large.
    fn tell_larger<E: Eprint>(self, errors: &E, last: &LastBytes) {
        let Some(larger) = self.larger else {
            return;
        };
        if larger.ends.iter().any(|end| last.are(end)) {
            let name = self.name;
            let advice = larger.advice;
            let _ = eprintln!(errors; "{name}: {advice}");
        }
    }

    // Tells that a read or a write failed, and why, or that memory is out. Where `errors` can't be written, the status still tells.
    fn tell_failed<E: Eprint>(
        self,
        errors: &E,
        status: Status,
        read: Option<io::Error>,
        write: Option<io::Error>,
    ) {
        let (what, why, then) = match status {
            Status::Clean | Status::Violated | Status::TraceFault | Status::Usage => return,
            Status::ReadFault => ("standard input could not be read", read, self.unread),
            Status::WriteFault => (
                "standard output could not be written",
                write,
                self.cut_short,
            ),
            Status::NoMemory => ("out of memory", None, self.cut_short),
        };
        let name = self.name;
        let _ = match why {
            Some(why) => eprintln!(errors; "{name}: {what}: {why}; {then}"),
            None => eprintln!(errors; "{name}: {what}; {then}"),
        };
    }
}
