//! Numbers of exceptions and what they stand for, and keys.

ghost use Rattle.std.specs.Prelude.{◌≡◌, ◌++◌, ℕ, List};
ghost use Rattle.hs_base.specs.declared.exn.Exn.{Exn};
ghost use Rattle.rules_waiting.specs.OneCell.{Cell};
ghost use Rattle.rules_waiting.specs.Waiting.{withdrawn, is_throwing, flying_to, first_thrown};
ghost use Rattle.hs_rules.specs.Entries.{throwers};
ghost use Rattle.number_states.specs.declared.waits.flight.Thrown.{Thrown};
ghost use Rattle.number_states.specs.declared.waits.sleepers.Asleep.{Asleep};
ghost use Rattle.number_states.specs.waits.Throwing.{without_thrower, has_thrower, thrown_to, first_of, throwers_of, map_flight, map_thrown};
ghost use Rattle.number_states.specs.waits.Sleeping.{sleepers};
ghost use Rattle.number_states.specs.waits.Keys.{cell_key, cells_key, flight_key, sleepers_key};

/// To replace the numbers of exceptions by exceptions and to withdraw, to look for a thrower, or for what flies to a thread, come
/// to the same in either order.
pub fn flights_commute()
    ensures withdraw { (f : ℕ → Exn) (t : ℕ) (xs : List Thrown) → map_flight f (without_thrower t xs) ≡ withdrawn t (map_flight f xs) }
    ensures throws { (f : ℕ → Exn) (t : ℕ) (xs : List Thrown) → has_thrower t xs ≡ is_throwing t (map_flight f xs) }
    ensures to { (f : ℕ → Exn) (u : ℕ) (xs : List Thrown) → map_flight f (thrown_to u xs) ≡ flying_to u (map_flight f xs) }
    ensures first { (f : ℕ → Exn) (xs : List Thrown) → map_thrown f (first_of xs) ≡ first_thrown (map_flight f xs) }
    ensures throwers { (f : ℕ → Exn) (xs : List Thrown) → throwers_of xs ≡ throwers (map_flight f xs) }
    ensures more { (f : ℕ → Exn) (xs ys : List Thrown) → map_flight f (xs ++ ys) ≡ map_flight f xs ++ map_flight f ys }
{}

/// Where two lists begin with keys of cells and are equal, the cells are equal, and so is what follows. So it is of lists of
/// cells, of exceptions in flight and of sleepers.
pub fn keys_are_exact()
    ensures cell { (c d : Cell ℕ) (r s : List ℕ) → cell_key c ++ r ≡ cell_key d ++ s → (c ≡ d) × (r ≡ s) }
    ensures cells { (cs ds : List (Cell ℕ)) (r s : List ℕ) → cells_key cs ++ r ≡ cells_key ds ++ s → (cs ≡ ds) × (r ≡ s) }
    ensures flight { (xs ys : List Thrown) (r s : List ℕ) → flight_key xs ++ r ≡ flight_key ys ++ s → (xs ≡ ys) × (r ≡ s) }
    ensures sleepers { (xs ys : List Asleep) (r s : List ℕ) → sleepers_key xs ++ r ≡ sleepers_key ys ++ s → (xs ≡ ys) × (r ≡ s) }
{}
