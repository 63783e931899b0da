//! What every layer speaks of: texts, positions, masking states, exceptions, values, and the syntax
//! tree of a script.
//!
//! To a contract each of these is plain data. A `Txt` is the list of its bytes, a list is a list, and a box is what it
//! holds, so two trees that are equal are equal values.
#![tactic(auto)]

mod clock_choice;
mod exn;
mod limits;
mod mask;
mod no_memory;
mod pos;
mod text;
pub mod tree;
mod value;

pub use clock_choice::ClockChoice;
pub use exn::Exn;
pub use limits::Limits;
pub use mask::Mask;
pub use no_memory::NoMemory;
pub use pos::Pos;
pub use text::Txt;
pub use tree::{
    Action, Block, BlockArms, Body, CompareOp, ConsOp, Constant, Def, Expr, ExprArms, Link,
    ListLink, Name, Param, Script, Stmt, SumLink, SumOp, Ty, Written,
};
pub use value::{Head, Split, Value, ValueList, Values};
