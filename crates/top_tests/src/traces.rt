//! Tests of written histories: each call on texts that were written by hand.

#[cfg(test)]
mod reading;
#[cfg(test)]
mod writing;
