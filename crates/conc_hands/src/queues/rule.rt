//! How views are split and joined.
ghost use Rattle.std.specs.Prelude.{Option, None};
ghost use Rattle.rules_code.specs.declared.code.CodeBody.{CodeBody};
ghost use Rattle.conc_hands.specs.queues.QueueRule.{spent, told, less_one, of_one, both_of};

use crate::queues::view::QueueView;
use crossbeam_deque::protocol::{Join, Split};
use std::marker::{Brand, PhantomData};

/// Names a code. Each call that makes a queue picks it.
pub trait CodeName {
    ghost code: { Option CodeBody };
}

impl CodeName for Brand {
    ghost code = { None };
}

/// Tells the first view its code. The new view is spent.
pub struct TellCode<C> {
    of: PhantomData<C>,
}

impl<C: CodeName> Split<QueueView> for TellCode<C> {
    ghost left = { told C.code };

    ghost right = { λ _. spent };
}

/// Gives one share to a new view.
pub struct GiveOne;

impl Split<QueueView> for GiveOne {
    ghost left = { less_one };

    ghost right = { of_one };
}

/// Gives all to a new view. The old one is spent.
pub struct GiveAll;

impl Split<QueueView> for GiveAll {
    ghost left = { λ _. spent };

    ghost right = { λ v. v };
}

/// Takes a view in.
pub struct AddUp;

impl Join<QueueView> for AddUp {
    ghost both = { both_of };

    ghost spent = { spent };
}
