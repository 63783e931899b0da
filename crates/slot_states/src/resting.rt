//! Rest, counts and the first state.

ghost use Rattle.std.specs.Prelude.{◌≡◌, [], Some, slice_get, true};
ghost use Rattle.hs_base.specs.declared.exn.Exn.{Exn};
ghost use Rattle.hs_base.specs.declared.tree.script.Script.{Script};
ghost use Rattle.hs_rules.specs.declared.entry.LimitKind.{LimitKind};
ghost use Rattle.rules_expansion.specs.trees.Programs.{script_of};
ghost use Rattle.rules_meaning.specs.Values.{V};
ghost use Rattle.rules_waiting.specs.Waiting.{sleepers_of};
ghost use Rattle.hs_rules.specs.State.{State};
ghost use Rattle.hs_rules.specs.Endings as endings;
ghost use Rattle.hs_rules.specs.Endings.{IsDone, IsUncaught};
ghost use Rattle.hs_laws.specs.Standing.{NoneWorks};
ghost use Rattle.slot_laws.specs.SlotRules.{ret, throw};
ghost use Rattle.slot_states.specs.SlotStates.{SlotThread, SlotState, Represents, MainGoes};
ghost use Rattle.slot_states.specs.Resting.{AllRest, used};
ghost use Rattle.slot_states.specs.RestingLaws.{ActionsGoAlone, FirstStateStands};

/// All rest exactly where there is no work in the state that is stood for, and the sleepers and what is used are those of it.
pub fn rest_is_stood_for()
    ensures rests { (script : Script) (x : SlotState) (s : State) → Represents (script_of script) x s → AllRest x → NoneWorks s }
    ensures sleepers { (script : Script) (x : SlotState) (s : State) → Represents (script_of script) x s → x.sleepers ≡ [] → sleepers_of s.blocked ≡ [] }
    ensures used { (script : Script) (x : SlotState) (s : State) → Represents (script_of script) x s → (kind : LimitKind) → endings.used kind s ≡ used kind x }
{}

/// Main has finished by a value or by an exception where its thread with slots has.
pub fn main_is_stood_for()
    ensures done { (script : Script) (x : SlotState) (s : State) → Represents (script_of script) x s → (th : SlotThread) → slice_get x.threads 0 ≡ Some th → th.finished ≡ true → (v : V) → th.term.part ≡ ret v → IsDone s }
    ensures uncaught { (script : Script) (x : SlotState) (s : State) → Represents (script_of script) x s → (th : SlotThread) → slice_get x.threads 0 ≡ Some th → th.finished ≡ true → (e : Exn) → th.term.part ≡ throw e → IsUncaught s }
    ensures goes { (script : Script) (x : SlotState) (s : State) → Represents (script_of script) x s → MainGoes x → (IsDone s → ⊥) × (IsUncaught s → ⊥) }
{}

/// An action of a thread may be done alone in a masking scope of every state.
pub fn actions_go_alone()
    ensures { ActionsGoAlone }
{}

/// The first state: main alone is to do its action.
pub fn the_first_state_is_stood_for()
    ensures { FirstStateStands }
{}
