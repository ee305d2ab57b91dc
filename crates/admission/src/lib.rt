//! What a scheduler does to its lists: trials, sweeps, giving way, ends and ticks.
//!
//! Most are methods of `Roster`, a scheduler's clock and lists, and take the discipline by which the scheduler decides.
#![tactic(auto)]

pub mod admitting;
pub mod closing;
pub mod discipline;
pub mod giving;
mod retaining;
pub mod roster;
pub mod sweeping;
pub mod ticking;
pub mod trial;
