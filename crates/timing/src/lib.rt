//! When the jobs of a list finish, worked one after the other from a start tick.
#![tactic(auto)]

pub mod entry;
pub mod overrun;
#[cfg(test)]
mod tests;
pub mod timeline;
