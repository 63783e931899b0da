//! Meaning keeps types.

ghost use Rattle.std.specs.Prelude.{ℕ, List};
ghost use Rattle.rules_expansion.specs.trees.Trees.{Ex, T};
ghost use Rattle.rules_expansion.specs.trees.Programs.{Fn};
ghost use Rattle.rules_meaning.specs.Values.{Env};
ghost use Rattle.rules_meaning.specs.Meaning.{Functions, functions_of, value_of_ex};
ghost use Rattle.rules_typing.specs.Typing.{Ctx, TypedName, HasType};
ghost use Rattle.rules_typing.specs.TypingScripts.{sigs_from};
ghost use Rattle.rules_sorts.specs.TypedMeaning.{any_cell, Fits, FunctionsGood, Good, PureTyped, Well};

/// An expression that has a type gives a value of that type or an exception, and never nothing, in every environment that
/// fits its scope, where the pure functions that it may call do so. The pure functions of a script do, where each pure
/// definition has the type of its result.
pub fn meaning_keeps_types()
    ensures value { (c : Ctx) (fs : Functions) (e : Ex) (s : List TypedName) (env : Env) (t : T) → FunctionsGood any_cell c fs → Well e → Fits any_cell s env → HasType c s e t → Good any_cell t (value_of_ex fs env e) }
    ensures functions { (ds : List Fn) (here : ℕ) → PureTyped (sigs_from 0 ds) 0 ds → FunctionsGood any_cell (record { sigs = sigs_from 0 ds; here = here }) (functions_of ds) }
{}
