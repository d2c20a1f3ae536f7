use crate::numbers::{LEAST_WORKERS, MOST_PATHS};
use console::{LargerHeaps, OptionRule, Options, Takes};
use generator::{LEAST_SIZE, MOST_NUMBER, MOST_SIZE};
use heap_base::MOST_WORKERS;

/// The options of an audit, for whoever wrote a word that is refused. Which words are taken is for `settings_of` to say.
pub const AUDIT_OPTIONS: Options = Options {
    rules: &[WORKERS, PATHS, REACT, GEN, SIZE],
    together: "--gen and --size go together",
};

/// Those of an audit that generates no trace: `large_settings_of` says which words are taken.
pub const LARGE_AUDIT_OPTIONS: Options = Options {
    rules: &[WORKERS, PATHS, REACT],
    together: "these options don't go together",
};

/// What is said of a heap that the audit with the usual limits refuses as too large: the reports that tell it, and who takes more.
pub const LARGER_HEAPS: LargerHeaps = LargerHeaps {
    ends: &["TooManyObjects\n", "TooManySlots\n", "TooManyRoots\n"],
    advice: "this heap is too large for it; gcheap takes larger ones (gcaudit --large)",
};

const WORKERS: OptionRule = OptionRule {
    name: "workers",
    takes: Takes::Number(LEAST_WORKERS, MOST_WORKERS),
};

const PATHS: OptionRule = OptionRule {
    name: "paths",
    takes: Takes::Number(0, MOST_PATHS),
};

const REACT: OptionRule = OptionRule {
    name: "react",
    takes: Takes::OneOf(&["report", "halt", "force"]),
};

const GEN: OptionRule = OptionRule {
    name: "gen",
    takes: Takes::Number(0, MOST_NUMBER),
};

const SIZE: OptionRule = OptionRule {
    name: "size",
    takes: Takes::Number(LEAST_SIZE, MOST_SIZE),
};
