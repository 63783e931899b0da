//! What a run has come to.
ghost use Rattle.std.specs.Prelude.{◌≡◌, List};
ghost use Rattle.hs_rules.specs.declared.entry.Entry.{Entry};
ghost use Rattle.hs_rules.specs.Runs.{IsRun};
ghost use Rattle.hs_rules.specs.State.{State};
ghost use Rattle.rules_meaning.specs.CoreMeaning.{code_of};
ghost use Rattle.trace_checker.specs.player.Playing.{Played, ReachedAs, Unchanged, script};
ghost use Rattle.trace_checker.specs.player.Reaching.{ended_as as ended_by, going_as as going_by};

use crate::player::player::{Player, Reached};
use frame_stack::Control;
use run_course::history::{Next, next_of};

impl Player {
    /// What the run has come to: the first of what there is that holds.
    pub fn reached(&mut self) -> Reached
        ensures same { Unchanged self.old self.new }
        ensures reached { (es : List Entry) (s : State) → Played es self.old → IsRun (script self.old) es s → ReachedAs result (code_of (script self.old)) s }
    {
        let main = &self.world.threads.list[0];
        if main.finished {
            return ended_as(main.stack.control());
        }
        going_as(next_of(&mut self.world))
    }
}

/// Where the main thread has finished by this.
fn ended_as(control: &Control) -> Reached
    ensures { result ≡ ended_by control.now }
{
    match control {
        Control::Ret(_) => Reached::Done,
        Control::Doing(_, _) => Reached::Uncaught,
        Control::Throw(_) => Reached::Uncaught,
        Control::Op(_) => Reached::Uncaught,
    }
}

/// Where it hasn't, and this can be done next.
fn going_as(next: Next) -> Reached
    ensures { result ≡ going_by next }
{
    match next {
        Next::Over(_) => Reached::Open,
        Next::Act(_) => Reached::Open,
        Next::Goes => Reached::Open,
        Next::Sleeps(_) => Reached::Open,
        Next::Stuck => Reached::Deadlock,
    }
}
