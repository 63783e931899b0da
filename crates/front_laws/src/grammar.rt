//! Laws of the grammar's answers, which no code calls.
//!
//! Where the openers of a script stand is decided by its tokens. So a list of tokens has one answer: a script, the first
//! token with which none goes on, or the first opener that stands in too many.

ghost use Rattle.std.specs.Prelude.{◌≡◌, ◌++◌, ◌∷◌, ℕ, List};
ghost use Rattle.hs_base.specs.declared.tree.script.Script.{Script};
ghost use Rattle.rules_tokens.specs.declared.token.Token.{Token};
ghost use Rattle.rules_grammar.specs.Grammar.{IsTooDeep, IsUnexpected};
ghost use Rattle.hs_grammar.specs.Parser.{Means, Out};
ghost use Rattle.front_laws.specs.grammar.Answers.{SameAnswer};
ghost use Rattle.front_laws.specs.grammar.Spelling.{AreSpelled};

/// Two answers for one list of tokens are the same.
pub fn one_answer()
    ensures { (n : ℕ) (ts : List Token) (o p : Out Script) → Means n ts o → Means n ts p → SameAnswer o p }
{}

/// Behind an opener that stands in too many, and at it, no token is unexpected, however the tokens go on.
pub fn deep_or_unexpected()
    ensures { (n : ℕ) (read : List Token) (t : Token) (more front left : List Token) → IsTooDeep n read t → front ++ left ≡ read ++ t ∷ more → IsUnexpected n front left → ⊥ }
{}

/// Each constant by which the grammar names a reserved word or a symbol is the place of its text in the table that the lexer
/// reads.
#[tactic(auto, using(crate::proofs::grammar_lemmas::Spelled::all_spelled))]
pub fn constants_are_spelled()
    ensures { AreSpelled }
{}
