//! Does a table of jobs hold? The table read from text, and the answer.
#![tactic(auto)]

pub mod reading;
pub mod report;
pub mod table;
#[cfg(test)]
mod tests;
