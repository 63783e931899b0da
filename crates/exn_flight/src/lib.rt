//! Exceptions in flight, and sleepers.
//!
//! To a contract `Flight` is the list of exceptions in flight, in order of throwing, and `spare`, how many more fit
//! before `room` is called again. `Sleepers` is the list of sleeping threads, by due and of one due by thread, and its
//! `spare`.
//!
//! The promise: each call is what the one list of blocked threads (`rules_waiting`, `Waiting`) says of throwers and of
//! sleepers; once room was made no call takes memory. Delivering and waking are left to the caller.
//!
//! A throw that is over, and a place that a sleeper left, stay until `room` finds too little room: it then moves what is
//! left to twice as many places.
#![tactic(auto)]

pub mod blocked;
mod flight;
mod sleepers;
mod sleeping;
mod table;
mod throws;
mod tournament;

pub use flight::Flight;
pub use sleepers::Sleepers;
