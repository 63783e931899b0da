//! What may cross threads: a function that starts threads with it is proved only where it may.
use conc_hands::{Hand, Hands};
use conc_turn::{Seat, Turn};
use hs_rules::{Kept, Ticketed};
use std::thread::{Threads, join};

// Takes a reference, so that the closure that calls it has to hold it.
fn look<T>(shared: &T) {
    let _ = shared;
}

/// The hands are shared, and a hand is sent.
pub fn hands_cross<J: Ticketed + Drop + Send, S: Ticketed + Drop + Send, R: Threads + Sync>(
    rt: &R,
    hands: &Hands<J, S>,
    one: Hand<J, S>,
) -> Hand<J, S> {
    join(rt, move || one, move || look(hands)).0
}

/// The turn is shared, and a seat is sent.
pub fn turn_crosses<D: Kept + Drop + Send, R: Threads + Sync>(
    rt: &R,
    turn: &Turn<D>,
    one: Seat,
) -> Seat {
    join(rt, move || one, move || look(turn)).0
}
