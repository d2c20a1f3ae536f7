//! Tests of what stands below a run, where neither a contract nor a case shows it: streams and errors, lines and their
//! meaning, regions and sweeps, and paths and owners with a worked example of each call.
#![tactic(auto)]

#[cfg(test)]
mod cutting;
#[cfg(test)]
mod devices;
#[cfg(test)]
mod errors;
#[cfg(test)]
mod finding;
#[cfg(test)]
mod lines;
#[cfg(test)]
mod paths;
#[cfg(test)]
mod regions;
#[cfg(test)]
mod sweeping;
#[cfg(test)]
mod usual;
