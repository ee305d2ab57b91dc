//! The load program as a function from bytes to text: lines of calls, each served and answered.
#![tactic(auto)]

mod reading;
pub mod reply;
mod request;
mod session;
mod token;
