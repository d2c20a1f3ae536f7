ghost use Rattle.std.specs.Prelude.{◌≡◌, true, false, map, Err, IfOk};
ghost use Rattle.clap.specs.Words.{app_of, found_of, matches_of, rows_of, rule_of};
ghost use Rattle.settings.specs.Command.{command, is_well_formed, option_of};
ghost use Rattle.settings.specs.declared.settings.SettingsError.TheVariants.{Usage};

use crate::settings::SettingsError;
use clap::{Arg, ArgAction, ArgMatches, Command};
use std::alloc::{AllocError, Global};

pub(crate) const WORKERS: &str = "workers";

pub(crate) const PATHS: &str = "paths";

pub(crate) const REACT: &str = "react";

pub(crate) const GEN: &str = "gen";

pub(crate) const SIZE: &str = "size";

/// What clap finds in the words, the program's name first, where it finds no fault.
pub(crate) fn parse<'a>(
    alloc: Global,
    words: &'a [&'a str],
) -> Result<ArgMatches<'a>, SettingsError>
    ensures taken { IfOk result (λ m. is_well_formed (map (λ w. w.now) words.now) ≡ true) }
    ensures matches { IfOk result (λ m. rows_of (found_of m) ≡ matches_of command (map (λ w. w.now) words.now)) }
    ensures refused { result ≡ Err Usage → is_well_formed (map (λ w. w.now) words.now) ≡ false }
{
    if words.is_empty() {
        return Err(SettingsError::Usage);
    }
    let matches = command(alloc)?.try_get_matches_from(words)?;
    Ok(matches)
}

fn command<'a>(alloc: Global) -> Result<Command<'a>, AllocError>
    ensures { IfOk result (λ c. app_of c ≡ command) }
{
    Command::new(alloc, "gcaudit")
        .arg(option(alloc, WORKERS))?
        .arg(option(alloc, PATHS))?
        .arg(option(alloc, REACT))?
        .arg(option(alloc, GEN))?
        .arg(option(alloc, SIZE))
}

// The option that is written `--name`, with one value.
fn option<'a>(alloc: Global, name: &'a str) -> Arg<'a>
    ensures rule { rule_of result ≡ option_of name.now }
    ensures local { result.global ≡ false }
{
    Arg::new(alloc, name).long(name).action(ArgAction::Set)
}
