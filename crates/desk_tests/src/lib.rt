//! Tests of what rows can't say of a run: the calls on a desk one by one, jobs that are held while the run goes on, slices that
//! come back late, and a desk under a turn.
#![tactic(auto)]

mod desks;

pub use desks::{Quiet, at, job_of, ran};

#[cfg(test)]
mod calls;
#[cfg(test)]
mod cutting;
#[cfg(test)]
mod overtaken;
#[cfg(test)]
mod reading;
#[cfg(test)]
mod turns;
