//! Worked rows, by calls.

use crate::kept::Log;
use crate::two::TestHands;
use conc_turn::{Tried, Turn};
use hs_base::NoMemory;
use hs_rules::{Code, Entry};
use std::alloc::Global;
use std::sync::Wait;

/// While one seat has the turn the other's try reads 1 and loses; after the give it wins. Answers that word, and how many
/// entries the closed value has.
pub fn tries_while_held<R: Wait>(rt: &R, alloc: Global, log: Log) -> Option<(u64, usize)> {
    let (turn, seat) = Turn::new(alloc, log).ok()?;
    let (one, two) = turn.split(seat, 8);
    let mut held = turn.take(rt, one);
    let _ = held.kept().entries.push(Entry::Op { t: 0 });
    let (two, word) = match turn.try_take(two) {
        Tried::Got(held) => (held.give(), 0),
        Tried::Busy { seat, word } => (seat, word),
    };
    let one = held.give();
    let two = match turn.try_take(two) {
        Tried::Got(mut held) => {
            let _ = held.kept().entries.push(Entry::Finish { t: 0 });
            held.give()
        }
        Tried::Busy { seat, word: _ } => seat,
    };
    let all = turn.join(one, two);
    let log = turn.close(all);
    Some((word, log.entries.len()))
}

/// What one hand reads in the flags: nothing at first, a ticket of the same word, and then the last one raised there.
pub fn one_hand_cuts(alloc: Global, code: &Code) -> Result<(u64, u64, u64), NoMemory> {
    let (hands, mut list) = TestHands::new(alloc, 1, code)?;
    let mut hand = list.take().unwrap();
    let first = hands.raised(&mut hand, 1);
    hands.raise(&mut hand, 65);
    let second = hands.raised(&mut hand, 1);
    hands.raise(&mut hand, 1);
    let third = hands.raised(&mut hand, 1);
    Ok((first, second, third))
}
