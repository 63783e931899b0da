//! Waiting: one cell alone with its line, and the one list of blocked threads with what it says of each cell, thrower
//! and sleeper, in any type of values.
//!
//! It has no code (`specs/OneCell.antt`, `specs/Waiting.antt`). The rules of a run use it with the mirror of values, the
//! leaf objects `mvar_cell` and `exn_flight` with the code's own.
#![tactic(auto)]
