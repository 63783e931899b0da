//! How the threads of a run stand, and how many there are.

ghost use Rattle.std.specs.Prelude.{◌≡◌, ◌≤◌, ◌+◌, ℕ, List, ◌++◌, []};
ghost use Rattle.hs_rules.specs.declared.entry.Entry.{Entry};
ghost use Rattle.rules_expansion.specs.trees.Programs.{Fn};
ghost use Rattle.rules_meaning.specs.Values.{V};
ghost use Rattle.rules_waiting.specs.OneCell.{leaves_line};
ghost use Rattle.rules_waiting.specs.Waiting.{Reason, Waiting, blocks, leaves, want_at, with_place, line_of};
ghost use Rattle.hs_rules.specs.State.{State};
ghost use Rattle.hs_rules.specs.Histories.{steps_of};
ghost use Rattle.hs_rules.specs.Runs.{IsRun};
ghost use Rattle.hs_laws.specs.Standing.{Standing, made_so_far};

/// In every state of a run nobody is blocked twice, a blocked thread hasn't finished and stands at the operation that
/// blocked it, nobody waits in a throw at itself, and a finished thread is a value or an exception without frames. All
/// threads, cells, uses of `bracket` and uses of `timeout` together number at most one more than the steps.
pub fn threads_stand()
    ensures standing { (ds : List Fn) (es : List Entry) (s : State) → IsRun ds es s → Standing s }
    ensures made { (ds : List Fn) (es : List Entry) (s : State) → IsRun ds es s → made_so_far s ≤ steps_of es + 1 }
{}

/// The line of a cell is what the blocked threads say of it: it loses a thread that is blocked no more, and gets one that
/// blocks at that cell, at its end.
pub fn lines_are_of_the_blocked()
    ensures leaves { (m t : ℕ) (ws : List (Waiting V)) → line_of m (leaves t ws) ≡ leaves_line t (line_of m ws) }
    ensures blocks { (m t : ℕ) (r : Reason V) (ws : List (Waiting V)) → line_of m (blocks t r ws) ≡ line_of m ws ++ with_place t (want_at m r) [] }
{}
