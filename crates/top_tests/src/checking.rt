//! Tests of the check of traces: traces that were written by hand, and what they come to.

#[cfg(test)]
mod verdicts;
