//! Stacks stand for the threads of a state, from the first state on and through each entry.

ghost use Rattle.std.specs.Prelude.{ℕ, List};
ghost use Rattle.hs_base.specs.declared.tree.script.Script.{Script};
ghost use Rattle.hs_rules.specs.declared.entry.Entry.{Entry};
ghost use Rattle.rules_expansion.specs.trees.Programs.{script_of};
ghost use Rattle.rules_typing.specs.TypingScripts.{Accepted};
ghost use Rattle.hs_rules.specs.State.{State, first};
ghost use Rattle.hs_rules.specs.Runs.{IsRun};
ghost use Rattle.slot_laws.specs.SlotRules.{forks, SlotTerm, locals};
ghost use Rattle.slot_laws.specs.Stacks.{StacksStand};
ghost use Rattle.slot_laws.specs.StackLaws.{StacksStay, StacksAreAnswered, LocalsKeepStacks, EntriesKeepStacks, StrandingKeepsStacks, ForksAddAStack, UnmaskingForksAddAStack, MainHasAStack};

/// Where a store follows, the stack of a thread whose frames stay as they are stands as before, and by its answer where its
/// part is a value or an exception now.
pub fn stacks_follow()
    ensures still { StacksStay }
    ensures answered { StacksAreAnswered }
{}

/// Stacks that stand for the threads of a state stand on: one moves by local rules, and each gets the value or exception
/// that its thread gets by an entry that is no Local and no fork. By a fork a stack more stands. In the first state main's
/// stack stands.
pub fn stacks_stand()
    ensures locals { LocalsKeepStacks }
    ensures entries { EntriesKeepStacks }
    ensures stranded { StrandingKeepsStacks }
    ensures forks { ForksAddAStack }
    ensures unmasks { UnmaskingForksAddAStack }
    ensures first { MainHasAStack }
{}

/// For each state of a run of an accepted script there are stacks that stand.
pub fn runs_have_stacks()
    ensures { (script : Script) → Accepted script → (es : List Entry) (u : State) → IsRun (script_of script) es u → (stacks : ℕ → SlotTerm) × StacksStand (script_of script) stacks u }
{}
