//! The admission scheduler: jobs that arrive are guaranteed, displace others, or are parked until time is saved.
//!
//! `Scheduler` is generic over the store of its ready jobs, the order in which they are worked, and the policy by which
//! jobs give way. `replay` answers a whole list of calls, with the promise over every run as its contract.
#![tactic(auto)]

pub mod calls;
pub mod replay;
pub mod scheduler;
