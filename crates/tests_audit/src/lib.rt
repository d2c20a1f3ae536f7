//! Tests of whole runs by their calls: reads and writes that fail, what two workers do at the same time, the line of each refusal; of workers
//! that stay parked between runs, markings and collections; and of the checker of reports. What a trace's report is, the cases on the built
//! program show.
#![tactic(auto)]

#[cfg(test)]
mod faults;
#[cfg(test)]
mod residents;
#[cfg(test)]
mod tests;
