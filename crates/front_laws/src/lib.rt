//! Laws of the front, which no code calls: of the grammar's answers (`grammar`) and of those of the typing rules (`typing`).
#![tactic(auto)]

pub mod grammar;
pub mod typing;
