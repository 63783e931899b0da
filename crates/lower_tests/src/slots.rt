//! Tests of environments of slots and of equality.
//!
//! It has no code of its own, and promises nothing. Each public call stands here once on its happy path: that it succeeds.

#[cfg(test)]
mod equality;
#[cfg(test)]
mod slots;
