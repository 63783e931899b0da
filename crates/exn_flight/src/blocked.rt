//! What blocking a thread, and blocking it no more, does to the exceptions in flight and to the sleepers. There is no code
//! here: each public function with an empty body carries laws as its contract.

ghost use Rattle.std.specs.Prelude.{◌≡◌, ℕ, List, [], ◌∷◌, ◌++◌};
ghost use Rattle.hs_base.specs.declared.exn.Exn.{Exn};
ghost use Rattle.rules_meaning.specs.Values.{V};
ghost use Rattle.rules_waiting.specs.Waiting.{Waiting, Throwing, Sleeping, blocks, leaves, flight_of, sleepers_of, withdrawn, still_asleep, sleeper_added, sorted_sleepers};

/// The exceptions in flight are the throwers among the blocked threads: `Flight::throw_at` does to them what a thrower
/// that blocks does, and `deliver` and `withdraw` what one that is blocked no more does.
pub fn flight_is_of_the_blocked()
    ensures throws { (t u : ℕ) (e : Exn) (ws : List (Waiting V)) → flight_of (blocks t (Throwing u e) ws) ≡ flight_of ws ++ record { thrower = t; target = u; exn = e } ∷ [] }
    ensures leaves { (t : ℕ) (ws : List (Waiting V)) → flight_of (leaves t ws) ≡ withdrawn t (flight_of ws) }
{}

/// The sleepers are those among the blocked threads: a sleeper that blocks is one more, and one that wakes or is hit is
/// the one that is missing. Put in order, they change as `Sleepers::add` and `Sleepers::remove` say.
pub fn sleepers_are_of_the_blocked()
    ensures sleeps { (t due : ℕ) (ws : List (Waiting V)) → sleepers_of (blocks t (Sleeping due) ws) ≡ sleepers_of ws ++ record { thread = t; due = due } ∷ [] }
    ensures leaves { (t : ℕ) (ws : List (Waiting V)) → sleepers_of (leaves t ws) ≡ still_asleep t (sleepers_of ws) }
    ensures sleeps_in_order { (t due : ℕ) (ws : List (Waiting V)) → sorted_sleepers (sleepers_of (blocks t (Sleeping due) ws)) ≡ sleeper_added (record { thread = t; due = due }) (sorted_sleepers (sleepers_of ws)) }
    ensures leaves_in_order { (t : ℕ) (ws : List (Waiting V)) → sorted_sleepers (sleepers_of (leaves t ws)) ≡ still_asleep t (sorted_sleepers (sleepers_of ws)) }
{}
