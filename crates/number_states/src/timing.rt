ghost use Rattle.std.specs.Prelude.{◌≡◌};
ghost use Rattle.number_states.specs.States.{AreIn, Becomes, untimed};

use crate::numbers::Numbers;
use crate::state::NumberState;

impl NumberState {
    /// Nothing is left of the time but who sleeps: every sleeper is due, and the clock shows 0.
    pub fn without_time(&mut self, numbers: &Numbers)
        requires { AreIn numbers.now self.old }
        ensures { Becomes (λ b. untimed) numbers.now self.old numbers.now self.new }
    {
        let _ = numbers;
        crate::waits::undue(&mut self.sleepers);
        self.clock = 0;
    }
}
