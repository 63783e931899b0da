//! A law of verdicts, which no code calls.
ghost use Rattle.std.specs.Prelude.{◌≡◌, ℕ, List};
ghost use Rattle.hs_base.specs.declared.tree.script.Script.{Script};
ghost use Rattle.hs_compile.specs.declared.refusal.Refusal.{Refusal};
ghost use Rattle.hs_compile.specs.Verdicts.{IsAccepted, IsRefused};

/// An input is one accepted script at most, and then it is refused for no cause.
pub fn one_verdict()
    ensures script { (bytes : List ℕ) (s t : Script) → IsAccepted bytes s → IsAccepted bytes t → s ≡ t }
    ensures refusal { (bytes : List ℕ) (s : Script) (r : Refusal) → IsAccepted bytes s → IsRefused r bytes → ⊥ }
{}
