//! Never stuck.

ghost use Rattle.std.specs.Prelude.{◌≡◌, List, Some};
ghost use Rattle.hs_base.specs.declared.tree.script.Script.{Script};
ghost use Rattle.hs_rules.specs.declared.entry.Entry.{Entry};
ghost use Rattle.rules_expansion.specs.trees.Programs.{script_of};
ghost use Rattle.rules_meaning.specs.CoreMeaning.{code_of};
ghost use Rattle.rules_typing.specs.TypingScripts.{Accepted};
ghost use Rattle.hs_rules.specs.State.{State};
ghost use Rattle.hs_rules.specs.Entries.{next};
ghost use Rattle.hs_rules.specs.Runs.{IsRun};
ghost use Rattle.hs_rules.specs.Endings.{IsDone, IsUncaught};
ghost use Rattle.hs_progress.specs.GoingOn.{MainRuns};
ghost use Rattle.hs_progress.specs.TypedStates.{TypedState, Follows, Stays};
ghost use Rattle.hs_progress.specs.GoingLaws.{RunningThreadsGoOn, OperationsLeaveStates};

/// In each state of a run of an accepted script, where the main thread hasn't finished, a thread that hasn't finished and
/// isn't blocked has a legal entry of its own: the Op of the operation that it stands at, its Finish, or one local rule.
/// An operation of such a thread leaves a state, whether main has finished or not. Main hasn't finished where the run has
/// ended neither by its value nor by an exception that nothing catches.
pub fn runs_go_on()
    ensures main { (s : Script) → Accepted s → (es : List Entry) (u : State) → IsRun (script_of s) es u → ¬ IsDone u → ¬ IsUncaught u → MainRuns u }
    ensures own { RunningThreadsGoOn }
    ensures operation { OperationsLeaveStates }
{}

/// The state of a run is typed by a store. By whichever it is, each entry leaves a state that is typed by a later one: no
/// cell changes what it is for, no thread is lost, and only local rules change what goes to a thread's frames.
pub fn runs_stay_typed()
    ensures typed { (s : Script) → Accepted s → (es : List Entry) (u : State) → IsRun (script_of s) es u → TypedState (script_of s) u }
    ensures follows { (s : Script) → Accepted s → (es : List Entry) (u v : State) (e : Entry) → IsRun (script_of s) es u → next (code_of (script_of s)) u e ≡ Some v → (d : TypedState (script_of s) u) → Follows (script_of s) d.store (Stays e) v }
{}
