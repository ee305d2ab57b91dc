//! The jobs of one processor: their records, their ranges, and why a call is refused.
#![tactic(auto)]

pub mod ending;
pub mod job;
pub mod numbered;
pub mod ranges;
pub mod refusal;
