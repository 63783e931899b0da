//! Lists of hands.
ghost use Rattle.std.specs.Prelude.{◌≡◌, ◌+◌, ◌-◌, ◌<◌, ◌≤◌, ◌∷◌, ◌++◌, ◌==◌, [], length, take, drop, IfOk, OnOk, OnErr, MatchOption};
ghost use Rattle.conc_hands.specs.Lists.{hands_in, spare_in, FromOneObject};

use crate::hand::Hand;
use hs_base::NoMemory;
use hs_rules::Ticketed;

/// Hands of one object.
#[derive(Drop)]
pub struct HandList<J: Ticketed, S: Ticketed> {
    pub(crate) hands: Vec<Hand<J, S>>,
}

impl<J: Ticketed, S: Ticketed> HandList<J, S> {
    /// How many hands there are.
    pub fn len(&self) -> usize
        ensures { result ≡ length (hands_in self.now) }
    {
        self.hands.len()
    }

    pub fn is_empty(&self) -> bool
        ensures { result ≡ (length (hands_in self.now) == 0) }
    {
        self.hands.is_empty()
    }

    /// How many more hands fit.
    pub fn spare(&self) -> usize
        ensures { result ≡ spare_in self.now }
    {
        self.hands.capacity() - self.hands.len()
    }

    /// Takes the first hand out.
    pub fn take(&mut self) -> Option<Hand<J, S>>
        ensures { MatchOption result ((hands_in self.old ≡ []) × (self.new ≡ self.old)) (λ hand. (hands_in self.old ≡ hand ∷ hands_in self.new) × (spare_in self.new ≡ spare_in self.old + 1)) }
    {
        if self.hands.is_empty() {
            return None;
        }
        Some(self.hands.remove(0))
    }

    /// Puts a hand back, behind the others. Takes no memory.
    pub fn give(&mut self, hand: Hand<J, S>)
        requires object { FromOneObject (hands_in self.old) hand }
        requires spare { 0 < spare_in self.old }
        ensures hands { hands_in self.new ≡ hands_in self.old ++ hand ∷ [] }
        ensures spare { spare_in self.new + 1 ≡ spare_in self.old }
    {
        self.hands.push_reserved(hand);
    }

    /// Moves the last `n` hands, in order, to a new list. At `Err` nothing has changed.
    pub fn halve(&mut self, n: u32) -> Result<HandList<J, S>, NoMemory>
        requires { n ≤ length (hands_in self.old) }
        ensures kept { OnOk result (hands_in self.new ≡ take (length (hands_in self.old) - n) (hands_in self.old)) }
        ensures moved { IfOk result (λ list. hands_in list ≡ drop (length (hands_in self.old) - n) (hands_in self.old)) }
        ensures spare { OnOk result (spare_in self.new ≡ spare_in self.old + n) }
        ensures err { OnErr result (self.new ≡ self.old) }
    {
        let hands = self.hands.split_off(self.hands.len() - n as usize)?;
        Ok(HandList { hands })
    }
}
