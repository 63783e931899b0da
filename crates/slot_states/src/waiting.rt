//! Who waits, and for what.

ghost use Rattle.hs_base.specs.declared.tree.script.Script.{Script};
ghost use Rattle.rules_expansion.specs.trees.Programs.{script_of};
ghost use Rattle.hs_rules.specs.State.{State};
ghost use Rattle.slot_states.specs.SlotStates.{SlotState, Represents};
ghost use Rattle.slot_states.specs.Premises.{OfRuns, OfAcceptedRuns};
ghost use Rattle.slot_states.specs.WaitingLaws.{BlockedStandAtOperations, ThrowersAreBlocked, SleepersAreBlocked, ThrowersOnlyThrow, SleepersOnlySleep, FreeThreadsWaitForNothing, TargetsAreThere};

/// In the state of a run a blocked thread hasn't finished and stands at an operation. Who throws, and who sleeps, is blocked
/// at that operation and waits for nothing else. In every state that stands for one of the rules, who isn't blocked waits for
/// nothing.
pub fn threads_wait()
    ensures blocked { OfRuns (λ s x. BlockedStandAtOperations x) }
    ensures thrower { OfRuns (λ s x. ThrowersAreBlocked x) }
    ensures sleeper { OfRuns (λ s x. SleepersAreBlocked x) }
    ensures throws { OfRuns (λ s x. ThrowersOnlyThrow x) }
    ensures sleeps { OfRuns (λ s x. SleepersOnlySleep x) }
    ensures free { (script : Script) (x : SlotState) (s : State) → Represents (script_of script) x s → FreeThreadsWaitForNothing x }
{}

/// In the state of a run a thread that throws at another names one that is there.
pub fn targets_are_there()
    ensures { OfAcceptedRuns (λ script s x. TargetsAreThere x) }
{}
