//! What is told a person on standard error, beside the line on standard output. Where standard error can't be written, the status still tells.
use report_check::MOST_DIGITS;
use settings::MOST_PATHS;
use std::io;

pub const NAME: &str = "gccheck";

/// That a file could not be read, where a read of it failed.
pub fn tell_read<E: Eprint>(errors: &E, name: &str, why: Option<io::Error>) {
    if let Some(why) = why {
        let _ = eprintln!(errors; "{NAME}: {name} could not be read: {why}");
    }
}

pub fn tell_write<E: Eprint>(errors: &E, why: Option<io::Error>) {
    let _ = match why {
        Some(why) => eprintln!(errors; "{NAME}: standard output could not be written: {why}"),
        None => eprintln!(errors; "{NAME}: standard output could not be written"),
    };
}

pub fn tell_memory<E: Eprint>(errors: &E) {
    let _ = eprintln!(errors; "{NAME}: out of memory");
}

/// Which of the words are refused, by how many there are, the program's name among them.
pub fn tell_words<E: Eprint>(errors: &E, count: usize) {
    let _ = match count {
        0..=2 => eprintln!(errors;
            "{NAME}: the names of a trace and of a report are needed; --help says more"
        ),
        4 => eprintln!(errors;
            "{NAME}: the number of paths is one from 0 to {MOST_PATHS}, in at most {MOST_DIGITS} digits; --help says more"
        ),
        _ => eprintln!(errors; "{NAME}: there are too many words; --help says more"),
    };
}
