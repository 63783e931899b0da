ghost use Rattle.std.specs.Prelude.{◌≡◌, Some};
ghost use Rattle.conc_hands.specs.Hands.{IsHandOf};
ghost use Rattle.caps_visits.specs.Objects.{object_of};

use crate::object::LooksAt;
use crate::parkers::Parkers;
use conc_hands::{Hand, Hands};
use hs_rules::Ticketed;
use std::marker::PhantomData;

/// A cutter: what a capability has while it runs a slice.
#[derive(Drop)]
pub(crate) struct Watch<'a, J: Ticketed, S: Ticketed, G, N: LooksAt> {
    pub(crate) hands: &'a Hands<J, S>,
    pub(crate) hand: Hand<J, S>,
    pub(crate) parkers: &'a Parkers,
    pub(crate) gate: &'a G,
    pub(crate) ticket: u64,
    /// The gate was called.
    pub(crate) began: bool,
    /// What it answered last.
    pub(crate) last: u64,
    pub(crate) named: PhantomData<N>,
    ghost own: { ∥ IsHandOf hands.now hand ∥₁ },
    ghost object: { ∥ N.object ≡ Some (object_of hands.now) ∥₁ },
}
