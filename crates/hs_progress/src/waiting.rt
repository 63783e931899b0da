//! When nothing can go on but time: the tests that look at threads alone are exact.

ghost use Rattle.std.specs.Prelude.{◌≡◌, ◌↔◌, List, []};
ghost use Rattle.hs_base.specs.declared.tree.script.Script.{Script};
ghost use Rattle.hs_rules.specs.declared.entry.Entry.{Entry};
ghost use Rattle.hs_rules.specs.declared.entry.Entry.TheVariants.{Stranded};
ghost use Rattle.rules_expansion.specs.trees.Programs.{script_of};
ghost use Rattle.rules_meaning.specs.CoreMeaning.{code_of};
ghost use Rattle.rules_typing.specs.TypingScripts.{Accepted};
ghost use Rattle.rules_waiting.specs.Waiting.{sleepers_of};
ghost use Rattle.hs_rules.specs.State.{State};
ghost use Rattle.hs_rules.specs.Entries.{IsIdle, IsLegal};
ghost use Rattle.hs_rules.specs.Runs.{IsRun};
ghost use Rattle.hs_rules.specs.Endings.{IsQuiet, IsDeadlock, AllWait};
ghost use Rattle.hs_laws.specs.Standing.{NoneWorks};
ghost use Rattle.hs_progress.specs.GoingOn.{MainRuns, MayStrand};

/// In each state of a run of an accepted script in which the main thread hasn't finished: there is no work exactly where all
/// unfinished threads are blocked, none can receive and no sleeper is due; nothing but a Tick is legal exactly where also,
/// if nobody sleeps, nobody is to be stranded; and it is a deadlock exactly where then nobody sleeps.
pub fn waiting_is_exact()
    ensures idle { (s : Script) → Accepted s → (es : List Entry) (u : State) → IsRun (script_of s) es u → MainRuns u → (IsIdle (code_of (script_of s)) u ↔ NoneWorks u) }
    ensures quiet { (s : Script) → Accepted s → (es : List Entry) (u : State) → IsRun (script_of s) es u → MainRuns u → (IsQuiet (code_of (script_of s)) u ↔ AllWait u) }
    ensures deadlock { (s : Script) → Accepted s → (es : List Entry) (u : State) → IsRun (script_of s) es u → MainRuns u → (IsDeadlock (code_of (script_of s)) u ↔ (AllWait u × (sleepers_of u.blocked ≡ []))) }
{}

/// In each state of a run of an accepted script threads may be stranded exactly where the main thread hasn't finished, no
/// other thread can go on, nobody sleeps, and some thread waits at a cell and isn't masked uninterruptibly.
pub fn stranding_is_exact()
    ensures { (s : Script) → Accepted s → (es : List Entry) (u : State) → IsRun (script_of s) es u → (IsLegal (code_of (script_of s)) u Stranded ↔ MayStrand u) }
{}
