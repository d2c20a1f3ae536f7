use std::alloc::Global;
use std::fmt;
use strsim::osa_distance;

/// What an option takes.
#[derive(Clone, Copy)]
pub enum Takes {
    /// A number from the first to the second, in at most ten digits.
    Number(u32, u32),
    OneOf(&'static [&'static str]),
}

/// An option that is written `--name VALUE` or `--name=VALUE`.
#[derive(Clone, Copy)]
pub struct OptionRule {
    pub name: &'static str,
    pub takes: Takes,
}

/// The options of a program.
#[derive(Clone, Copy)]
pub struct Options {
    pub rules: &'static [OptionRule],
    /// What is wrong with words that are refused though each is taken by itself.
    pub together: &'static str,
}

/// What is wrong with a word of a command line.
#[derive(Clone, Copy)]
pub(crate) enum Fault<'a> {
    /// No option has this name; the second is the nearest, where one is near.
    Unknown(&'a str, Option<&'static str>),
    /// The word is no option and no value of one.
    NotTaken(&'a str),
    Twice(&'static str),
    NoValue(&'static str),
    BadValue(OptionRule, &'a str),
}

// The name of an option as it is written behind its dashes, and its value where that stands behind it.
fn name_and_value(written: &str) -> (&str, Option<&str>) {
    match written.split_once('=') {
        Some((name, value)) => (name, Some(value)),
        None => (written, None),
    }
}

/// What is wrong with the first word, the program's name left out, that these options don't take as they stand.
pub(crate) fn first_fault<'a>(
    alloc: Global,
    rules: &[OptionRule],
    words: &'a [&'a str],
) -> Option<Fault<'a>> {
    let mut value_of: Option<OptionRule> = None;
    for (at, word) in words.iter().enumerate().skip(1) {
        let word = *word;
        if let Some(rule) = value_of.take() {
            if !is_value_of(rule.takes, word) {
                return Some(Fault::BadValue(rule, word));
            }
            continue;
        }
        let Some(written) = word.strip_prefix("--") else {
            return Some(Fault::NotTaken(word));
        };
        let (name, value) = name_and_value(written);
        let Some(rule) = rules.iter().find(|rule| rule.name == name) else {
            return Some(Fault::Unknown(word, nearest(alloc, rules, name)));
        };
        if is_named(words, at, rule.name) {
            return Some(Fault::Twice(rule.name));
        }
        match value {
            Some(value) if !is_value_of(rule.takes, value) => return Some(Fault::BadValue(
                *rule, value,
            )),
            Some(_) => (),
            None => value_of = Some(*rule),
        }
    }
    value_of.map(|rule| Fault::NoValue(rule.name))
}

// Whether an option of this name stands before the word at this place.
fn is_named(words: &[&str], at: usize, name: &str) -> bool {
    words.iter().take(at).any(|word| match word.strip_prefix("--") {
        Some(written) => written == name
            || written.split_once('=').is_some_and(|(it, _)| it == name),
        None => false,
    })
}

fn is_value_of(takes: Takes, value: &str) -> bool {
    match takes {
        Takes::Number(least, most) => match value.parse::<u32>() {
            Ok(number) => least <= number
                && number <= most
                && value.len() <= 10
                && value.bytes().all(|it| it.is_ascii_digit()),
            Err(_) => false,
        },
        Takes::OneOf(choices) => choices.iter().any(|it| *it == value),
    }
}

// The option whose name is nearest, by how many letters are wrong; no name is near that has more than two.
fn nearest(alloc: Global, rules: &[OptionRule], name: &str) -> Option<&'static str> {
    let mut found = None;
    let mut fewest = 3;
    for rule in rules {
        match osa_distance(alloc, name, rule.name) {
            Ok(wrong) if wrong < fewest => {
                fewest = wrong;
                found = Some(rule.name);
            }
            _ => (),
        }
    }
    found
}

impl fmt::Display for Takes {
    fn fmt<W: fmt::Write>(&self, f: &mut fmt::Formatter<W>) -> fmt::Result {
        match self {
            Takes::Number(least, most) => write!(f, "a number from {least} to {most}"),
            Takes::OneOf(choices) => {
                write!(f, "one of")?;
                for choice in *choices {
                    write!(f, " {choice}")?;
                }
                Ok(())
            }
        }
    }
}

impl<'a> fmt::Display for Fault<'a> {
    fn fmt<W: fmt::Write>(&self, f: &mut fmt::Formatter<W>) -> fmt::Result {
        match self {
            Fault::Unknown(word, None) => write!(f, "unknown option {word}"),
            Fault::Unknown(word, Some(name)) => write!(
                f,
                "unknown option {word} (did you mean --{name}?)"
            ),
            Fault::NotTaken(word) => write!(
                f,
                "the word {word} is not taken; the trace comes on standard input"
            ),
            Fault::Twice(name) => write!(f, "--{name} is given twice"),
            Fault::NoValue(name) => write!(f, "--{name} lacks its value"),
            Fault::BadValue(rule, value) => write!(
                f,
                "--{} takes {}, not {value}",
                rule.name, rule.takes
            ),
        }
    }
}
