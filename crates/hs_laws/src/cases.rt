//! The rules of a run by cases: each row of the tables of primitives and entries has a name, and a step is proved by naming
//! it. This module has no code: each public function with an empty body carries one law as its contract.
//!
//! To a contract `Performs t m operation s u` and `Enters code s e u` (`specs/cases/Cases.antt`) say which row it was that led
//! from state `s` to state `u`. The one promise: these are exactly `operated` and `next` of `hs_rules`. What holds of
//! whole runs is left to `hs_laws`.

ghost use Rattle.std.specs.Prelude.{◌≡◌, ℕ, List, Some, false};
ghost use Rattle.hs_base.specs.declared.mask.Mask.{Mask};
ghost use Rattle.rules_meaning.specs.Values.{V};
ghost use Rattle.rules_meaning.specs.CoreMeaning.{Code};
ghost use Rattle.rules_waiting.specs.OneCell.{first_take, leave_line, readers};
ghost use Rattle.rules_waiting.specs.Waiting.{Waiting, is_blocked, leaves, line_of};
ghost use Rattle.hs_rules.specs.declared.entry.Entry.{Entry};
ghost use Rattle.hs_rules.specs.Terms.{Operation};
ghost use Rattle.hs_rules.specs.State.{State, answer};
ghost use Rattle.hs_rules.specs.Primitives.{operated};
ghost use Rattle.hs_rules.specs.Entries.{next, IsTimely, Leads};
ghost use Rattle.hs_laws.specs.cases.Cases.{putter, taker, read_there, Performs, Enters};

/// An operation is performed exactly by one of its cases.
pub fn operations_have_cases()
    ensures case { (t : ℕ) (m : Mask) (p : Operation) (s u : State) → operated t m p s ≡ Some u → Performs t m p s u }
    ensures performed { (t : ℕ) (m : Mask) (p : Operation) (s u : State) → Performs t m p s u → operated t m p s ≡ Some u }
{}

/// An entry goes on exactly by one of its cases. So it is legal where it has a case and comes in time.
pub fn entries_have_cases()
    ensures case { (code : Code) (s : State) (e : Entry) (u : State) → next code s e ≡ Some u → Enters code s e u }
    ensures entered { (code : Code) (s : State) (e : Entry) (u : State) → Enters code s e u → next code s e ≡ Some u }
    ensures leads { (code : Code) (s : State) (e : Entry) (u : State) → Enters code s e u → IsTimely code s e → Leads code s e u }
{}

/// What the cases of cells look at: where a thread isn't blocked its answer leaves the blocked as they are, and so who waits
/// first to put; and where all readers of a cell were answered its line, and each other, is the one before without them.
pub fn answers_leave_lines()
    ensures free { (t : ℕ) (ws : List (Waiting V)) → is_blocked t ws ≡ false → leaves t ws ≡ ws }
    ensures read { (c k : ℕ) (a : V) (s : State) → line_of k (read_there c a s).blocked ≡ leave_line (readers (line_of c s.blocked)) (line_of k s.blocked) }
    ensures putter { (t c : ℕ) (a : V) (s : State) → is_blocked t s.blocked ≡ false → putter c (answer t a s) ≡ putter c s }
    ensures taker { (t c : ℕ) (a b : V) (s : State) → is_blocked t s.blocked ≡ false → taker c (read_there c a (answer t b s)) ≡ first_take (leave_line (readers (line_of c s.blocked)) (line_of c s.blocked)) }
{}
