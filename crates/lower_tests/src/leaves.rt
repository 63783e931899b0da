//! Tests of what the others stand on: values, the outside, the index of names, cells, exceptions in flight, sleepers,
//! histories and tickets.
//!
//! It has no code of its own, and promises nothing. Its tests call public functions alone, each once on its happy path
//! and where a contract says nothing: that calls succeed, and that copies and drops don't grow with a value.

#[cfg(test)]
mod cells;
#[cfg(test)]
mod clocks;
#[cfg(test)]
mod flight;
#[cfg(test)]
mod history;
#[cfg(test)]
mod index;
#[cfg(test)]
mod outside;
#[cfg(test)]
mod tickets;
#[cfg(test)]
mod values;
