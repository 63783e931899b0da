//! The rule of the flags, and what its steps tell.
ghost use Rattle.std.specs.Prelude.{[]};
ghost use Rattle.conc_hands.specs.flags.FlagsRule.{IsRuled, pen_view, raises, reads, less_one, of_one, both_of, spent_view};

use crate::flags::view::{FlagsKey, PenView};
use atomic_table::{Join, Play, Split, TableRule};

pub struct FlagsRule;

impl TableRule<(), PenView, FlagsKey> for FlagsRule {
    ghost holds = { λ key. IsRuled key.hands };

    ghost first = { λ key. pen_view key.hands [] [] };
}

/// Stores a ticket.
pub struct Raise;

impl Play<(), PenView> for Raise {
    ghost then = { raises };
}

/// Loads a word.
pub struct Read;

impl Play<(), PenView> for Read {
    ghost then = { reads };
}

/// Gives one share to a new pen.
pub struct GiveOne;

impl Split<PenView> for GiveOne {
    ghost left = { less_one };

    ghost right = { of_one };
}

/// Gives all to a new pen. The old one is spent.
pub struct GiveAll;

impl Split<PenView> for GiveAll {
    ghost left = { λ _. spent_view };

    ghost right = { λ v. v };
}

/// Adds up two pens.
pub struct AddUp;

impl Join<PenView> for AddUp {
    ghost both = { both_of };

    ghost spent = { spent_view };
}
