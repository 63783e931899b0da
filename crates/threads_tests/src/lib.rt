//! Tests of the turn, of the hands and of the loop over both: worked rows, and runs on several threads.
#![tactic(auto)]

mod close;
mod ending;
mod items;
mod kept;
mod rows;
mod sends;
mod several;
mod two;

pub use close::{close_four, close_two};
pub use ending::{Pair, Signs, Task};
pub use items::{Item, a_body, a_code, ticket_of};
pub use kept::{Log, a_log};
pub use rows::{one_hand_cuts, tries_while_held};
pub use sends::{hands_cross, turn_crosses};
pub use several::{Count, Tally, run_four};
pub use two::{four_hands, two_hands};

#[cfg(test)]
mod beside;
#[cfg(test)]
mod tests;
