//! The words of an input with their places, the numbers among them, and the faults of a line.
#![tactic(auto)]

mod bytes;
mod fault;
mod lines;
#[cfg(test)]
mod tests;
mod words;

pub use fault::{Cause, Fault, WordFault, numbered, placed};
pub use lines::{Lines, MAX_INPUT, accepted};
pub use words::{Number, Word, Words};
