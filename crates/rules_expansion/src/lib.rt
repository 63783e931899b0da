//! Core actions, and what each action of a script expands to.
//!
//! Names (`specs/Names.antt`), core actions (`Core`), templates of the forms that stand for others (`Templates`), the table of
//! expansions (`Expansion`) and the number of nodes of what it makes (`Sizes`) are definitions. The code has the words of
//! which templates are made, `steps`, whose promise is that it answers a form's template written out, and the row of each word
//! of an action (`unary_row` and its like), by which the crates above go. What core actions
//! do is left to `rules_meaning` (expressions) and to `hs_rules` (steps), and making the nodes of a code to `hs_core`.
//!
//! A part with a head of its own: `trees`, scripts as plain trees for definitions.
#![tactic(auto)]

mod hidden;
mod primitive;
mod scopes;
mod table;
mod template;
pub mod trees;

pub use hidden::Hidden;
pub use primitive::Primitive;
pub use table::{bare_row, binary_row, block_row, guard_row, steps, unary_row};
pub use template::{Binder, BlockRow, Derived, FormBlock, Operand, Step, UnaryRow};
