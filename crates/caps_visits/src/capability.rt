use conc_hands::Hand;
use conc_turn::Seat;
use hs_rules::Ticketed;

/// One capability: its right to ask for the turn, and its hand.
#[derive(Drop)]
pub struct Capability<J: Ticketed, S: Ticketed> {
    pub seat: Seat,
    pub hand: Hand<J, S>,
}
