//! The worked runs and the refusals executed on a scheduler over a row, and inputs of the load program.
#![tactic(auto)]

#[cfg(test)]
mod load;
#[cfg(test)]
mod refusals;
#[cfg(test)]
mod running;
#[cfg(test)]
mod worked;
