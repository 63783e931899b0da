//! The parser of scripts as a function of the tokens, and its laws.
//!
//! `specs/Parser.antt` has a parser for each rule of the grammar, with one token of look-ahead. Its laws: what it gives is
//! spelled by the tokens that it takes; what is spelled within the levels of openers is read; where it stops, the tokens
//! read go on in some script, and not with the token it stops at.
//! The one promise: at most one script is spelled by a list of tokens. The code that reads so is left to the crate above.
#![tactic(auto)]

ghost use Rattle.std.specs.Prelude.{◌≡◌, ℕ, List};
ghost use Rattle.hs_base.specs.declared.tree.script.Script.{Script};
ghost use Rattle.rules_tokens.specs.declared.token.Token.{Token};
ghost use Rattle.rules_grammar.specs.Grammar.{Spells};
ghost use Rattle.hs_grammar.specs.Parser.{whole, Means, Out};

/// At most one script is spelled by a list of tokens.
pub fn one_script()
    ensures { (x y : Script) (ts : List Token) → Spells x ts → Spells y ts → x ≡ y }
{}

/// What the parser's outcome says of the tokens, with so many levels of openers.
pub fn outcome()
    ensures { (n : ℕ) (ts : List Token) → Means n ts (whole n ts) }
{}
