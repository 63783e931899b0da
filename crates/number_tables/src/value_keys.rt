//! Keys of values: lists of numbers by which a table finds them.
//!
//! To a contract the key of a value, of an exception and of a text is a function of what it stands for (`specs/value_keys/Keys`). No key
//! begins another, so keys may stand one behind the other in a longer one.
//!
//! Its promise: what has one key is one value, and each call puts exactly the key at the end of a list. A key is as long as
//! its value, and takes as much time. Tables are left to `number_tables`.

pub mod laws;
mod numbers;
mod values;

pub use numbers::{mask_number, put, put_wide};
pub use values::{put_exn, put_value};
