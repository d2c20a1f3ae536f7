ghost use Rattle.std.specs.Prelude.{◌≡◌, ◌≢◌, Some, None, Err, map, IfOk};
ghost use Rattle.clap.specs.Words.{kind_of};
ghost use Rattle.clap.specs.declared.error.kind.ErrorKind.{ErrorKind};
ghost use Rattle.settings.specs.Settings.{IsInRange, large_settings_by, settings_by};
ghost use Rattle.settings.specs.declared.settings.SettingsError.{SettingsError};
ghost use Rattle.settings.specs.declared.settings.SettingsError.TheVariants.{Usage};

use crate::command::parse;
use crate::values::settings_from;
use clap::error::ErrorKind;
use generator::GenPlan;
use graph_meaning::React;
use std::alloc::{AllocError, Global};
use std::error::Error;
use std::fmt;

/// What an audit is asked for.
#[derive(Clone, Copy, Debug, PartialEq, Eq)]
pub struct Settings {
    /// How many workers trace the heap: 1 to `MOST_WORKERS`.
    pub workers: u32,
    /// With how many of a collection's violations paths are shown: 0 to `MOST_PATHS`.
    pub paths: u32,
    /// What is done about violations.
    pub react: React,
    /// The trace to generate, where none is read.
    pub plan: Option<GenPlan>,
}

/// Why there are no settings.
#[derive(Clone, Copy, Debug, PartialEq, Eq)]
pub enum SettingsError {
    /// The words are refused.
    Usage,
    /// Out of memory.
    OutOfMemory,
}

impl fmt::Display for SettingsError {
    fn fmt<W: fmt::Write>(&self, f: &mut fmt::Formatter<W>) -> fmt::Result {
        match self {
            SettingsError::Usage => write!(f, "the words of the command line are refused"),
            SettingsError::OutOfMemory => write!(f, "out of memory"),
        }
    }
}

impl Error for SettingsError {}

impl From<AllocError> for SettingsError {
    ghost from_gives = { λ e r. r ≡ SettingsError.OutOfMemory };

    fn from(_refused: AllocError) -> SettingsError {
        SettingsError::OutOfMemory
    }
}

impl From<clap::Error> for SettingsError {
    ghost from_gives = { λ e r. (kind_of e ≡ ErrorKind.OutOfMemory → r ≡ SettingsError.OutOfMemory)
        × (kind_of e ≢ ErrorKind.OutOfMemory → r ≡ SettingsError.Usage) };

    fn from(error: clap::Error) -> SettingsError {
        match error.kind() {
            ErrorKind::OutOfMemory => SettingsError::OutOfMemory,
            _ => SettingsError::Usage,
        }
    }
}

/// The settings that the words of a command line ask for, the program's name first.
///
/// The options are `--workers`, `--paths`, `--react`, `--gen` and `--size`, each at most once, and each with one value, as in
/// `--workers 4` or `--workers=4`. A number has 1 to 10 digits. `--gen` and `--size` stand together. Where an option isn't
/// there, there is 1 worker, 100 violations have paths, violations are reported, and no trace is generated. Other words
/// are refused: the answer is `Usage` exactly where they are, unless memory ran out.
pub fn settings_of(alloc: Global, words: &[&str]) -> Result<Settings, SettingsError>
    ensures taken { IfOk result (λ s. settings_by (map (λ w. w.now) words.now) ≡ Some s) }
    ensures refused { result ≡ Err Usage → settings_by (map (λ w. w.now) words.now) ≡ None }
    ensures in_range { IfOk result IsInRange }
{
    let matches = parse(alloc, words)?;
    match settings_from(&matches) {
        Some(settings) => Ok(settings),
        None => Err(SettingsError::Usage),
    }
}

/// The settings that the words of a command line ask for of an audit that generates no trace, the program's name first: as
/// `settings_of`, without `--gen` and `--size`, which are refused.
pub fn large_settings_of(alloc: Global, words: &[&str]) -> Result<Settings, SettingsError>
    ensures taken { IfOk result (λ s. large_settings_by (map (λ w. w.now) words.now) ≡ Some s) }
    ensures refused { result ≡ Err Usage → large_settings_by (map (λ w. w.now) words.now) ≡ None }
    ensures in_range { IfOk result IsInRange }
{
    let settings = settings_of(alloc, words)?;
    match settings.plan {
        None => Ok(settings),
        Some(_) => Err(SettingsError::Usage),
    }
}
