//! Actions of a code and their parts.
ghost use Rattle.std.specs.Prelude.{◌≡◌, MatchOption, take};
ghost use Rattle.rules_code.specs.Slots.{trees};
ghost use Rattle.rules_code.specs.CodeTrees.{a_bad, act_decode, act_trees};
ghost use Rattle.local_steps.specs.Machine.{act_of, below_of};

use rules_code::{Act, ActId, CodeBody};

/// The node of an action.
#[tactic(auto, using(slot_laws::proofs::ActNodes::act_rules))]
pub fn act_at(body: &CodeBody, at: ActId) -> Option<&Act>
    ensures { MatchOption result (act_of body.now at ≡ a_bad) (λ k. act_of body.now at ≡ act_decode (trees body.now.nodes) (take at.0 (act_trees body.now.nodes body.now.acts)) k.now) }
{
    body.acts.get(at.0)
}

/// The parts of the action with the number `above`.
#[derive(Clone, Copy)]
pub struct Parts<'a> {
    pub body: &'a CodeBody,
    pub above: usize,
}

impl Parts<'_> {
    /// A part, whose number is lower. One that isn't lower stands for nothing.
    #[tactic(auto, using(slot_laws::proofs::ActNodes::act_rules))]
    pub fn at(self, part: ActId) -> ActId
        ensures { act_of self.entry.body.now result ≡ below_of self.entry.body.now self.entry.above part }
    {
        if part.0 < self.above {
            part
        } else {
            ActId(self.body.acts.len())
        }
    }
}
