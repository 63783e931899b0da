//! A run beside the clock that it goes by.
//!
//! To a contract a `Clocked` is a record, the clock, and the clock as it was lent. It keeps that the time of the run is none
//! that the clock hadn't reached, and that each Tick of the history stands where the law of the clock lets it
//! (`specs/clocked/Clocks`, `hs_laws::clock`). `look` reads the clock where other work is, `sleep` waits where nothing else can go on;
//! each enters what it read by a Tick. All other calls hand on those of the record.
//!
//! What the clock tells is left to `hs_io`, and which act is done to the caller.

mod clocked;
mod handing_on;
mod reading;

pub use clocked::Clocked;
