use rules_code::CodeBody;
use std::collections::LinkedList;

/// What one end of a queue knows. No value of it is made: contracts alone speak of it.
pub struct QueueView {
    /// The code that the items belong to. None until the queue is told, and in a spent view.
    pub code: Option<CodeBody>,
    pub shares: u64,
    /// The tickets that it has put in.
    pub put: LinkedList<u64>,
    /// The tickets that it has taken out.
    pub taken: LinkedList<u64>,
}
