//! The rule of the turn, and what its steps tell.
ghost use Rattle.std.specs.Prelude.{ℕ, Some};
ghost use Rattle.conc_turn.specs.TurnRule.{IsRuled, view_with, tries_to_take, gives_back, compares, left_of, right_of, both_of, spent_view};

use crate::view::View;
use atomic_table::{Join, Play, Split, TableRule};
use hs_rules::{Kept, Plan};
use std::marker::{Brand, PhantomData};
use std::snapshot::Snapshot;

/// Word 0 says whether the turn is taken, and the one slot has the value.
pub struct TurnRule;

impl<D: Kept> TableRule<Option<D>, View, Snapshot<D>> for TurnRule {
    ghost holds = { λ key. IsRuled D.plan D.history (D.plan key.value) };

    ghost first = { λ key. view_with (Some (D.plan key.value)) (D.history key.value) 16 0 };
}

/// Takes the turn where it is free.
pub struct TryTake;

impl<D: Kept> Play<Option<D>, View> for TryTake {
    ghost then = { tries_to_take D.plan D.history };
}

/// Gives the turn back.
pub struct GiveBack;

impl<D: Kept> Play<Option<D>, View> for GiveBack {
    ghost then = { gives_back D.history };
}

/// Compares the histories of two seats that were joined.
pub struct Compare;

impl<D: Kept> Play<Option<D>, View> for Compare {
    ghost then = { compares };
}

/// How many shares a split gives away. Each split of a program picks it.
pub trait Amount {
    ghost amount: { ℕ };
}

impl Amount for Brand {
    ghost amount = { 0 };
}

/// Gives shares to a new seat.
pub struct SplitShares<N> {
    of: PhantomData<N>,
}

impl<N: Amount> Split<View> for SplitShares<N> {
    ghost left = { left_of N.amount };

    ghost right = { right_of N.amount };
}

/// Adds the shares of two seats.
pub struct AddShares;

impl Join<View> for AddShares {
    ghost both = { both_of };

    ghost spent = { spent_view };
}
