ghost use Rattle.std.specs.Prelude.{◌≡◌, ◌≢◌, ℕ, List};
ghost use Rattle.std.specs.List.{AllByRecursion};
ghost use Rattle.haskell_module.specs.Names.{name_text, other_words};

/// Two names of a script are two names in the module.
#[tactic(auto, using(crate::proofs::Apart::one_name))]
pub fn names_stay_apart()
    ensures { (x y : List ℕ) → name_text x ≡ name_text y → x ≡ y }
{}

/// No name of a script is a reserved word of Haskell in the module, or a name that the module has of its own or from elsewhere.
pub fn names_are_no_other_words()
    ensures { (x : List ℕ) → AllByRecursion (λ w. name_text x ≢ w) other_words }
{}
