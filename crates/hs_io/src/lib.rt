//! The outside of a run: where a script comes from, where output goes, what tells the time, where a test can hold a slice,
//! and what cuts a slice short.
//!
//! To a contract a `Source` is the bytes that it has left, a `Sink` the bytes that it was told, each where it tells them, and
//! each has a count of faults. A `Clock` is its last reading, its choice and a count of early waits, a `Cutter` its last
//! answer. The one promise: no count falls and no reading falls, and a fault is answered only where the count of the object
//! that was asked rose, which no other call raises. What real streams do is left to `StdSource` and `StdSink`, a few lines
//! each, which tell no bytes, and what the time of the machine does to `HostClock`, which tells nothing of it.
//!
//! A part with a head of its own: `retried`, a stream whose reads go on where a signal interrupts them.
#![tactic(auto)]

mod clock;
mod cutter;
mod failed;
mod gate;
mod host_clock;
mod mem_sink;
mod mem_source;
pub mod retried;
mod sink;
mod source;
mod standing_clock;
mod std_streams;

pub use clock::{Clock, VirtualClock};
pub use cutter::{Cutter, NeverCut};
pub use failed::Failed;
pub use gate::{Gate, OpenGate};
pub use host_clock::HostClock;
pub use mem_sink::{MemSink, NullSink};
pub use mem_source::{MemSource, PlainSource};
pub use sink::Sink;
pub use source::Source;
pub use standing_clock::StandingClock;
pub use std_streams::{StdSink, StdSource};
