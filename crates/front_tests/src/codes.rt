//! Tests of what scripts expand to, from the bytes of a script to the body of its `main`.

#[cfg(test)]
mod bodies;
