//! Tests of what marks a heap, over public calls alone: header words and tallies, the phases each by itself, a crew, and
//! the marking of a heap by one.
#![tactic(auto)]

#[cfg(test)]
mod headers;
#[cfg(test)]
mod phases;
#[cfg(test)]
mod tests;
