//! Tests of the text of what a search found, on outcomes that were written by hand.

#[cfg(test)]
mod listings;
