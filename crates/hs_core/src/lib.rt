//! From an accepted script to the code of a machine.
//!
//! To a contract an `ActEmitter` is the lists of its nodes and the names of its scope. Each step promises the same
//! (`specs/Emits`): the lists grow at their ends, the scope is as it was, and the number that is answered stands for a
//! tree, whatever nodes come after. The tree is that of the form's expansion in the step's scope (`specs/Opening`). An
//! action that stands for others is made by one loop over the steps of its template (`specs/Making`), so a block that an
//! expansion writes twice has its nodes twice. The names that expansions add are entries of the scope, so no script can
//! capture them. Running a code is left to the machine.
#![tactic(auto)]

mod action;
mod defs;
mod emitter;
mod expanding;
mod filling;
mod leaves;
mod making;
mod operands;
mod pending;

pub use defs::Defs;
pub use emitter::ActEmitter;
pub use expanding::expand;
