//! Tests of the adapters over streams that take little at a time, or nothing.

mod slow_stream;

pub use slow_stream::SlowStream;

#[cfg(test)]
mod sinks;
