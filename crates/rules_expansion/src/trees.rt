//! Scripts as plain trees for definitions.
//!
//! The code's tree of a script (`hs_base::tree`) is mirrored by data that definitions take apart by cases: expressions
//! and written types (`specs/trees/Trees.antt`), actions and scripts (`specs/trees/Programs.antt`). The one promise: each tree of the
//! code has one mirror, and the equations of `proofs/` say what it is for each shape. What a tree means is left to the
//! crates of typing, meaning and expansion.
