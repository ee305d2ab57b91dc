//! How lists are kept: rankings and their laws, rejection policies, insertion by a ranking.
#![tactic(auto)]

pub mod insertion;
pub mod lists;
pub mod orders;
pub mod policies;
pub mod ranking;
pub mod shifting;
