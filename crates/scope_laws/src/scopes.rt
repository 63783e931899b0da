//! The law of async scopes.

ghost use Rattle.std.specs.Prelude.{List};
ghost use Rattle.hs_base.specs.declared.tree.script.Script.{Script};
ghost use Rattle.hs_rules.specs.declared.entry.Entry.{Entry};
ghost use Rattle.rules_expansion.specs.trees.Programs.{script_of};
ghost use Rattle.rules_typing.specs.TypingScripts.{Accepted};
ghost use Rattle.hs_rules.specs.State.{State};
ghost use Rattle.hs_rules.specs.Runs.{IsRun};
ghost use Rattle.scope_laws.specs.ScopeLaw.{ScopeLaw};
ghost use Rattle.scope_laws.specs.ScopesKept.{ScopesKept};

/// In every run of an accepted script each cell that the child of an async scope is still acting on is guarded by exactly one
/// thread, which hasn't finished: it is between the fork of the child and the end of the STOP by which it leaves. So where a thread
/// has left an async scope, the child has ended its action. And each cell that a thread guards is full, or a thread that hasn't
/// finished is acting on it or about to put into it, so no STOP waits for a child that has gone without leaving its end. Such a cell
/// is put into by the child alone, and never taken from. The last clause says it of every moment of a history, and of each the fact
/// from which it follows.
pub fn children_end_first()
    ensures held { (s : Script) → Accepted s → (es : List Entry) (u : State) → IsRun (script_of s) es u → ScopeLaw u }
    ensures kept { (s : Script) → Accepted s → (es : List Entry) (u : State) → IsRun (script_of s) es u → ScopesKept (script_of s) es }
{}
