//! Tests of the lower crates, which stand above what they test.
//!
//! Parts with a head of their own: `leaves`, values, the outside, the index of names, cells, exceptions in flight,
//! sleepers, histories and tickets; `streams`, adapters over streams that take little at a time, or nothing;
//! `slots`, environments of slots, and equality; `evaluation`, evaluation, by rows of scripts and of nodes.
#![tactic(auto)]

pub mod evaluation;
pub mod leaves;
pub mod slots;
pub mod streams;
