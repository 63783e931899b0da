//! How a film begins and goes on. This file has no code.
ghost use Rattle.std.specs.Prelude.{◌≡◌, ◌++◌, ◌∷◌, [], List};
ghost use Rattle.hs_rules.specs.declared.entry.Entry.{Entry};
ghost use Rattle.hs_rules.specs.Entries.{Leads};
ghost use Rattle.hs_rules.specs.Runs.{IsRun};
ghost use Rattle.hs_rules.specs.State.{State};
ghost use Rattle.rules_meaning.specs.CoreMeaning.{code_of};
ghost use Rattle.rules_expansion.specs.trees.Programs.{Fn};
ghost use Rattle.trace_picture.specs.film.Filming.{film_of, first_frame, frame_of};

/// The film of no entries is the frame of the first state.
#[tactic(auto, using(crate::proofs::film_lemmas::Films::film_first))]
pub fn film_begins()
    ensures { (ds : List Fn) (s : State) → IsRun ds [] s → film_of ds [] ≡ first_frame s ∷ [] }
{}

/// The film of a run with one more entry has one more frame, of that entry and of the state that it leaves.
#[tactic(auto, using(crate::proofs::film_lemmas::Films::film_more))]
pub fn film_goes_on()
    ensures { (ds : List Fn) (es : List Entry) (s u : State) (e : Entry) → IsRun ds es s → Leads (code_of ds) s e u → film_of ds (es ++ e ∷ []) ≡ film_of ds es ++ frame_of e s u ∷ [] }
{}
