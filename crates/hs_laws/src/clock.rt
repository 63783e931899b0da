//! The law of the clock, for whoever keeps a history.

ghost use Rattle.std.specs.Prelude.{◌≡◌, ◌≢◌, ◌≤◌, length, Contains, ◌++◌, ◌∷◌, [], ℕ, suc, List, Some};
ghost use Rattle.hs_rules.specs.declared.entry.Entry.{Entry};
ghost use Rattle.hs_rules.specs.declared.entry.Entry.TheVariants.{Tick};
ghost use Rattle.rules_expansion.specs.trees.Programs.{Fn};
ghost use Rattle.rules_meaning.specs.CoreMeaning.{code_of};
ghost use Rattle.hs_rules.specs.State.{State};
ghost use Rattle.hs_rules.specs.Endings.{IsTick};
ghost use Rattle.hs_rules.specs.Runs.{after, IsRun};
ghost use Rattle.rules_meaning.specs.Values.{V};
ghost use Rattle.rules_waiting.specs.Waiting.{Waiting, Sleeping, reason_of, sleepers_of, sorted_sleepers, earliest};
ghost use Rattle.hs_laws.specs.Standing.{Once};
ghost use Rattle.hs_laws.specs.ClockLaw.{TickStands, IsPunctual, ClockKept};

/// An empty history keeps the law of the clock, and each entry keeps it: one that isn't a Tick always, and a Tick where it
/// may stand, either punctually or as one more early Tick. What keeps it keeps it with more early Ticks allowed, and each
/// prefix keeps it.
pub fn clock_goes_on()
    ensures begins { (ds : List Fn) → ClockKept ds [] 0 }
    ensures works { (ds : List Fn) (es : List Entry) (e : Entry) (n : ℕ) → ¬ IsTick e → ClockKept ds es n → ClockKept ds (es ++ e ∷ []) n }
    ensures ticks { (ds : List Fn) (es : List Entry) (at n : ℕ) (s : State) → after ds es ≡ Some s → ClockKept ds es n → TickStands (code_of ds) es s at → IsPunctual (code_of ds) s at → ClockKept ds (es ++ Tick at ∷ []) n }
    ensures early { (ds : List Fn) (es : List Entry) (at n : ℕ) (s : State) → after ds es ≡ Some s → ClockKept ds es n → TickStands (code_of ds) es s at → ClockKept ds (es ++ Tick at ∷ []) (suc n) }
    ensures more { (ds : List Fn) (es : List Entry) (n k : ℕ) → n ≤ k → ClockKept ds es n → ClockKept ds es k }
    ensures prefix { (ds : List Fn) (es more : List Entry) (n : ℕ) → ClockKept ds (es ++ more) n → ClockKept ds es n }
{}

/// A Tick that another one follows at once is one of the early ones, so over a punctual clock no Tick follows a Tick.
pub fn ticks_stand_apart()
    ensures early { (ds : List Fn) (es : List Entry) (u : State) (n : ℕ) → IsRun ds es u → (h : ClockKept ds es n) → (front back : List Entry) (a b : ℕ) → es ≡ front ++ Tick a ∷ Tick b ∷ back → Contains h.places (length front) }
    ensures punctual { (ds : List Fn) (es : List Entry) (u : State) → IsRun ds es u → ClockKept ds es 0 → (front back : List Entry) (a b : ℕ) → es ≢ front ++ Tick a ∷ Tick b ∷ back }
{}

/// The first sleeper that may wake sleeps among the blocked threads, until then.
pub fn the_first_due_sleeps()
    ensures { (ws : List (Waiting V)) (due : ℕ) → Once ws → earliest (sorted_sleepers (sleepers_of ws)) ≡ Some due → (t : ℕ) × (reason_of t ws ≡ Some (Sleeping due)) }
{}
