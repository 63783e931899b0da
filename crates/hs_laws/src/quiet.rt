//! When nothing but time can go on.

ghost use Rattle.std.specs.Prelude.{List};
ghost use Rattle.hs_rules.specs.declared.entry.Entry.{Entry};
ghost use Rattle.rules_expansion.specs.trees.Programs.{Fn};
ghost use Rattle.hs_rules.specs.State.{State};
ghost use Rattle.hs_rules.specs.Entries.{IsIdle};
ghost use Rattle.hs_rules.specs.Runs.{IsRun};
ghost use Rattle.rules_meaning.specs.CoreMeaning.{code_of};
ghost use Rattle.hs_rules.specs.Endings.{AllWait, IsQuiet};
ghost use Rattle.hs_laws.specs.Standing.{NoneWorks};
ghost use Rattle.hs_laws.specs.QuietLaws.{WaitingThreadsAreStranded};

/// In the state of a run, where every unfinished thread is blocked, none can receive an exception in flight to it, no sleeper
/// may wake yet, and where nobody sleeps nobody is to be stranded, no entry but a Tick is legal. So a runner that finds this
/// and no sleeper has found a deadlock.
pub fn waiting_is_quiet()
    ensures { (ds : List Fn) (es : List Entry) (s : State) → IsRun ds es s → AllWait s → IsQuiet (code_of ds) s }
{}

/// Where threads wait so, there is no work. So where nobody sleeps, those who are to be stranded may be.
pub fn waiting_is_idle()
    ensures idle { (ds : List Fn) (es : List Entry) (s : State) → IsRun ds es s → NoneWorks s → IsIdle (code_of ds) s }
    ensures strands { WaitingThreadsAreStranded }
{}
