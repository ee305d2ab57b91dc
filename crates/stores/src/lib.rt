//! Where jobs and endings are kept: tables of 64, and the ready store.
#![tactic(auto)]

pub mod lookup;
pub mod ready;
pub mod row;
pub mod table;
#[cfg(test)]
mod tests;
