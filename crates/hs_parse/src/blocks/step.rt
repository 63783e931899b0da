use hs_base::{Action, Stmt};

/// An item of a block: a statement, or an action that may be the block's last.
#[derive(Drop)]
pub enum Step {
    Stmt(Stmt),
    Last(Action),
}
