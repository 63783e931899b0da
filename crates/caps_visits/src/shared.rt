//! What all capabilities of a run share.
ghost use Rattle.std.specs.Prelude.{◌≡◌, vec_len};
ghost use Rattle.rules_code.specs.Codes.{body_of};
ghost use Rattle.hs_rules.specs.declared.kept.Plan.{Plan};
ghost use Rattle.conc_turn.specs.Turns.{turn_plan};
ghost use Rattle.conc_hands.specs.Hands.{hands_code, hands_count};
ghost use Rattle.caps_visits.specs.Sets.{bodies_are_a_set};

use crate::parkers::Parkers;
use conc_hands::Hands;
use conc_turn::Turn;
use hs_rules::{Code, Kept, Plan, Ticketed};

/// What follows a plan. A ghost field can't cite a bound of `Turn` itself.
pub trait Planned {
    ghost plan: { Self → Plan };
}

impl<D: Kept> Planned for Turn<D> {
    ghost plan = { turn_plan D.plan };
}

/// The hands carry what belongs to the code of the turn's plan, and each hand has a berth.
pub struct Shared<'a, T: Planned, J: Ticketed, S: Ticketed, G> {
    pub turn: &'a T,
    pub hands: &'a Hands<J, S>,
    pub code: &'a Code,
    pub parkers: &'a Parkers,
    pub gate: &'a G,
    pub ghost planned: { hands_code hands.now ≡ (T.plan turn.now).body } by { bodies_are_a_set (hands_code hands.now) (T.plan turn.now).body },
    pub ghost coded: { body_of code.now ≡ hands_code hands.now } by { bodies_are_a_set (body_of code.now) (hands_code hands.now) },
    pub ghost berthed: { vec_len parkers.now.berths ≡ hands_count hands.now },
}

// Written out, since nothing that it refers to is let go with it.
impl<'a, T: Planned, J: Ticketed, S: Ticketed, G> Drop for Shared<'a, T, J, S, G> {
    fn drop(self) {
        let Shared {
            turn: _,
            hands: _,
            code: _,
            parkers: _,
            gate: _,
        } = self;
    }
}
