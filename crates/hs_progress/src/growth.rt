//! A new cell or thread changes nothing for the old ones.

ghost use Rattle.std.specs.Prelude.{◌≡◌, ◌<◌, ℕ, List, Option};
ghost use Rattle.rules_expansion.specs.trees.Trees.{T};
ghost use Rattle.rules_expansion.specs.trees.Programs.{Fn};
ghost use Rattle.rules_meaning.specs.Values.{V};
ghost use Rattle.rules_sorts.specs.Sorts.{Sort};
ghost use Rattle.hs_rules.specs.Terms.{Term};
ghost use Rattle.hs_rules.specs.State.{Thread};
ghost use Rattle.hs_soundness.specs.CoreSorts.{OfSort};
ghost use Rattle.hs_progress.specs.TypedStates.{Purpose, Store, Grows, has, with_cell, with_thread, TermTyped, ThreadTyped, CellTyped};

/// A store with one more cell, or with one more thread, is a later one, and the threads that were there keep their sorts.
pub fn stores_grow()
    ensures cell { (p : Purpose) (st : Store) → Grows st (with_cell p st) }
    ensures thread { (k : Sort) (st : Store) → Grows st (with_thread k st) }
    ensures sorts { (k : Sort) (st : Store) (u : ℕ) → u < st.count → (with_thread k st).sorts u ≡ st.sorts u }
{}

/// What a store types, each later store types the same.
pub fn later_stores_type_the_same()
    ensures numbers { (old new : Store) → Grows old new → (m : ℕ) (t : T) → has old m t → has new m t }
    ensures values { (old new : Store) → Grows old new → (k : Sort) (v : V) → OfSort (has old) k v → OfSort (has new) k v }
    ensures contents { (old new : Store) → Grows old new → (c : Option (Option V)) (p : Option Purpose) → CellTyped (has old) c p → CellTyped (has new) c p }
    ensures terms { (ds : List Fn) (old new : Store) → Grows old new → (t : Term) → TermTyped (has old) ds t → TermTyped (has new) ds t }
    ensures threads { (ds : List Fn) (old new : Store) → Grows old new → (k : Sort) (th : Option Thread) → ThreadTyped (has old) ds k th → ThreadTyped (has new) ds k th }
{}
