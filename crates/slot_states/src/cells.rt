//! Operations on cells.

ghost use Rattle.std.specs.Prelude.{◌≡◌, ◌<◌, [], ◌∷◌, ℕ, Some, None, length, slice_get, false};
ghost use Rattle.hs_base.specs.declared.tree.script.Script.{Script};
ghost use Rattle.rules_expansion.specs.trees.Programs.{script_of};
ghost use Rattle.rules_meaning.specs.Values.{V, Cell};
ghost use Rattle.rules_expansion.specs.declared.primitive.Primitive.TheVariants.{NewMVar, NewEmptyMVar, TakeMVar, PutMVar, ReadMVar, TryTakeMVar, TryPutMVar};
ghost use Rattle.rules_typing.specs.TypingScripts.{Accepted};
ghost use Rattle.rules_waiting.specs.OneCell.{Take, Read, Put, Try_take, Try_put};
ghost use Rattle.hs_rules.specs.State.{State};
ghost use Rattle.slot_laws.specs.SlotRules.{performs, calls};
ghost use Rattle.slot_states.specs.SlotStates.{SlotThread, SlotState, called, makes, Represents, StandsAt};
ghost use Rattle.slot_states.specs.Resting.{WaitsAt, InNoLine};
ghost use Rattle.slot_states.specs.Premises.{OfRuns, OpEnters};
ghost use Rattle.slot_states.specs.CellLaws.{WaitersAreBlocked, BlockedAreInLine};

/// The Op of a thread at an operation on a cell makes what the machine of one cell makes of that cell: each thread that the
/// machine answers is answered, and where it answers nobody the thread is blocked.
pub fn calls_are_entered()
    ensures take { (script : Script) → Accepted script → (x : SlotState) (t m : ℕ) → OpEnters script x t (calls TakeMVar (Cell m ∷ [])) (called t m (Take t) x) }
    ensures read { (script : Script) → Accepted script → (x : SlotState) (t m : ℕ) → OpEnters script x t (calls ReadMVar (Cell m ∷ [])) (called t m (Read t) x) }
    ensures put { (script : Script) → Accepted script → (x : SlotState) (t m : ℕ) (v : V) → OpEnters script x t (calls PutMVar (Cell m ∷ v ∷ [])) (called t m (Put t v) x) }
    ensures try_take { (script : Script) → Accepted script → (x : SlotState) (t m : ℕ) → OpEnters script x t (calls TryTakeMVar (Cell m ∷ [])) (called t m (Try_take t) x) }
    ensures try_put { (script : Script) → Accepted script → (x : SlotState) (t m : ℕ) (v : V) → OpEnters script x t (calls TryPutMVar (Cell m ∷ v ∷ [])) (called t m (Try_put t v) x) }
    ensures new { (script : Script) → Accepted script → (x : SlotState) (t : ℕ) (v : V) → OpEnters script x t (calls NewMVar (v ∷ [])) (makes t (Some v) x) }
    ensures new_empty { (script : Script) → Accepted script → (x : SlotState) (t : ℕ) → OpEnters script x t (calls NewEmptyMVar []) (makes t None x) }
{}

/// In a state that stands for one of the rules the cell of such an operation is there, and who isn't blocked stands in no
/// line. So the machine of cells may be called.
pub fn calls_may_be_made()
    ensures waits { (script : Script) (x : SlotState) (s : State) → Represents (script_of script) x s → (t m : ℕ) (th : SlotThread) → slice_get x.threads t ≡ Some th → WaitsAt m th.term.part → m < length x.cells }
    ensures tries_to_take { (script : Script) (x : SlotState) (s : State) → Represents (script_of script) x s → (t m : ℕ) → StandsAt x t (performs (calls TryTakeMVar (Cell m ∷ []))) → m < length x.cells }
    ensures tries_to_put { (script : Script) (x : SlotState) (s : State) → Represents (script_of script) x s → (t m : ℕ) (v : V) → StandsAt x t (performs (calls TryPutMVar (Cell m ∷ v ∷ []))) → m < length x.cells }
    ensures nowhere { (script : Script) (x : SlotState) (s : State) → Represents (script_of script) x s → (t : ℕ) (th : SlotThread) → slice_get x.threads t ≡ Some th → th.blocked ≡ false → InNoLine t x }
{}

/// In the state of a run whoever stands in a line is there, is blocked, hasn't finished and stands at an operation of that
/// cell. Who is blocked at such an operation stands in the line of its cell and waits for nothing else.
pub fn lines_are_of_threads()
    ensures line { OfRuns (λ s x. WaitersAreBlocked x) }
    ensures thread { OfRuns (λ s x. BlockedAreInLine x) }
{}
