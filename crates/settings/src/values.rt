//! What the values of the options ask for.
ghost use Rattle.std.specs.Prelude.{◌≡◌, map, option_map};
ghost use Rattle.clap.specs.Words.{first_value, found_of};
ghost use Rattle.settings.specs.Numbers.{number_by};
ghost use Rattle.settings.specs.Settings.{option_setting, plan_by, plan_of, react_asked, react_by, settings_from};

use crate::command::{GEN, PATHS, REACT, SIZE, WORKERS};
use crate::numbers::{LEAST_WORKERS, MOST_PATHS, USUAL_WORKERS, number_by};
use crate::settings::Settings;
use clap::ArgMatches;
use generator::{GenPlan, LEAST_SIZE, MOST_NUMBER, MOST_SIZE};
use graph_meaning::React;
use heap_base::{MOST_WORKERS, USUAL_PATHS};

/// The settings that the options ask for, and `None` where a value is none that its option may have.
#[tactic(auto, unfolding(crate::specs::Settings::settings_from))]
pub(crate) fn settings_from(matches: &ArgMatches<'_>) -> Option<Settings>
    ensures { result ≡ settings_from (first_value (found_of matches.now)) }
{
    let workers = workers_asked(matches.get_str(WORKERS))?;
    let paths = paths_asked(matches.get_str(PATHS))?;
    let react = react_asked(matches.get_str(REACT))?;
    let plan = plan_of(matches.get_str(GEN), matches.get_str(SIZE))?;
    Some(Settings {
        workers,
        paths,
        react,
        plan,
    })
}

fn workers_asked(value: Option<&str>) -> Option<u32>
    ensures { result ≡ option_setting USUAL_WORKERS (number_by LEAST_WORKERS MOST_WORKERS) (option_map (λ v. v.now) value.entry) }
{
    match value {
        None => Some(USUAL_WORKERS),
        Some(text) => number_by(text, LEAST_WORKERS, MOST_WORKERS),
    }
}

fn paths_asked(value: Option<&str>) -> Option<u32>
    ensures { result ≡ option_setting USUAL_PATHS (number_by 0 MOST_PATHS) (option_map (λ v. v.now) value.entry) }
{
    match value {
        None => Some(USUAL_PATHS),
        Some(text) => number_by(text, 0, MOST_PATHS),
    }
}

fn react_asked(value: Option<&str>) -> Option<React>
    ensures { result ≡ option_setting React.Report react_by (option_map (λ v. v.now) value.entry) }
{
    match value {
        None => Some(React::Report),
        Some(text) => react_by(text),
    }
}

fn react_by(text: &str) -> Option<React>
    ensures { result ≡ react_by text.now }
{
    match text {
        "report" => Some(React::Report),
        "halt" => Some(React::Halt),
        "force" => Some(React::Force),
        _ => None,
    }
}

// A plan has a number and a size; where neither is there, no trace is to be generated.
fn plan_of(number: Option<&str>, size: Option<&str>) -> Option<Option<GenPlan>>
    ensures { result ≡ plan_of (option_map (λ v. v.now) number.entry) (option_map (λ v. v.now) size.entry) }
{
    match (number, size) {
        (None, None) => Some(None),
        (Some(number), Some(size)) => plan_by(number, size).map(Some),
        _ => None,
    }
}

fn plan_by(number: &str, size: &str) -> Option<GenPlan>
    ensures { result ≡ plan_by number.now size.now }
{
    let number = number_by(number, 0, MOST_NUMBER)?;
    let size = number_by(size, LEAST_SIZE, MOST_SIZE)?;
    Some(GenPlan { number, size })
}
