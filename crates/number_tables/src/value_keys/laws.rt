//! What has one key is one thing.

ghost use Rattle.std.specs.Prelude.{◌≡◌, ◌++◌, ℕ, List};
ghost use Rattle.hs_base.specs.declared.exn.Exn.{Exn};
ghost use Rattle.rules_meaning.specs.Values.{V};
ghost use Rattle.number_tables.specs.value_keys.Keys.{text_key, exn_key, value_key, values_key, wide_key};

/// Where two lists begin with keys of values and are equal, the values are equal, and so is what follows. So it is of numbers,
/// texts, exceptions and lists of values.
pub fn keys_are_exact()
    ensures wide { (m n : ℕ) (r s : List ℕ) → wide_key m ++ r ≡ wide_key n ++ s → (m ≡ n) × (r ≡ s) }
    ensures texts { (a b r s : List ℕ) → text_key a ++ r ≡ text_key b ++ s → (a ≡ b) × (r ≡ s) }
    ensures exceptions { (d e : Exn) (r s : List ℕ) → exn_key d ++ r ≡ exn_key e ++ s → (d ≡ e) × (r ≡ s) }
    ensures values { (v w : V) (r s : List ℕ) → value_key v ++ r ≡ value_key w ++ s → (v ≡ w) × (r ≡ s) }
    ensures lists { (vs ws : List V) (r s : List ℕ) → values_key vs ++ r ≡ values_key ws ++ s → (vs ≡ ws) × (r ≡ s) }
{}
