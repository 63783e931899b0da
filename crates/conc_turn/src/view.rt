use hs_rules::{Entry, Plan};
use std::collections::LinkedList;

/// What a seat knows. No value of it is made: contracts alone speak of it.
pub struct View {
    /// The plan of the turn. A spent view has none.
    pub plan: Option<Plan>,
    /// The history that was seen.
    pub seen: LinkedList<Entry>,
    /// What the other seat had seen at a join, until the load that compares the two.
    pub joined: LinkedList<Entry>,
    /// The history with which the value was found, while the seat has the turn.
    pub found: LinkedList<Entry>,
    /// Whether the seat has the turn.
    pub holds: bool,
    pub shares: u64,
    /// How many tries were lost.
    pub lost: u64,
}
