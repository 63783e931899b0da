//! Laws of the typing rules' answers, which no code calls.
//!
//! Each node of a script stands at a token of its own. So the position of a broken rule says at which node it is broken,
//! and how. A script that tokens spell has one answer: it is accepted, it lacks `main`, or one rule is the first that it
//! breaks.

ghost use Rattle.std.specs.Prelude.{◌≡◌, ◌≢◌, ℕ, List, map, AllPairs, Contains, IsTrue};
ghost use Rattle.hs_base.specs.declared.pos.Pos.{Pos};
ghost use Rattle.hs_base.specs.declared.tree.script.Script.{Script};
ghost use Rattle.rules_tokens.specs.declared.token.Token.{Token};
ghost use Rattle.rules_tokens.specs.declared.token.Tokens.{Tokens};
ghost use Rattle.rules_tokens.specs.Tokens.{HasTokens};
ghost use Rattle.rules_grammar.specs.Grammar.{Spells};
ghost use Rattle.rules_grammar.specs.GrammarParts.{kind_of};
ghost use Rattle.rules_expansion.specs.trees.Programs.{script_of};
ghost use Rattle.rules_typing.specs.Typing.{Fault};
ghost use Rattle.rules_typing.specs.TypingFaults.{place, rank};
ghost use Rattle.rules_typing.specs.TypingScripts.{Accepted, ScriptBreaks};
ghost use Rattle.typing_parts.specs.declared.fault.TypeFault.{TypeFault};
ghost use Rattle.typing_parts.specs.declared.fault.TypeFault.TheVariants.{NoMemory};
ghost use Rattle.hs_types.specs.declared.answer.Answer.{Answer};
ghost use Rattle.hs_types.specs.Answers.{IsAnswer};
ghost use Rattle.hs_types.specs.Faults.{Refused};
ghost use Rattle.front_laws.specs.typing.Positions.{positions_of, AreInOrder, has_node};

/// The tokens of any text are in order, so the laws below hold of every script that is read from one.
pub fn tokens_in_order()
    ensures { (bytes : List ℕ) (tokens : Tokens) → HasTokens bytes tokens → AreInOrder tokens.list }
{}

/// No two nodes of a script have one position.
pub fn nodes_apart()
    ensures { (ts : List Token) (s : Script) → AreInOrder ts → Spells s ts → AllPairs (λ p q. p ≢ q) (positions_of s) }
{}

/// Each node stands at a token of its script: no position is made up.
pub fn nodes_at_tokens()
    ensures { (ts : List Token) (s : Script) (p : Pos) → Spells s ts → Contains (positions_of s) p → Contains (map (λ t. t.pos) ts) p }
{}

/// The positions leave out no node for which a token of its own kind always stands, as a name, an operator or the first
/// word of a form.
pub fn tokens_at_nodes()
    ensures { (ts : List Token) (s : Script) (t : Token) → Spells s ts → Contains ts t → IsTrue (has_node (kind_of t.tok)) → Contains (positions_of s) t.pos }
{}

/// The positions leave out no node at which a rule can be broken, whatever tokens may spell.
pub fn broken_at_nodes()
    ensures { (s : Script) (f : Fault) → ScriptBreaks (script_of s) f → Contains (positions_of s) (place f) }
{}

/// At one position each rule is broken in at most one way: what was wanted there and what was found are fixed.
pub fn broken_in_one_way()
    ensures { (ts : List Token) (s : Script) (f g : Fault) → AreInOrder ts → Spells s ts → ScriptBreaks (script_of s) f → ScriptBreaks (script_of s) g → place f ≡ place g → rank f ≡ rank g → f ≡ g }
{}

/// Two answers for one script are the same.
pub fn one_answer()
    ensures { (ts : List Token) (s : Script) (a b : Answer) → AreInOrder ts → Spells s ts → IsAnswer a s → IsAnswer b s → a ≡ b }
{}

/// Two reasons to refuse one script are the same. For want of memory any script may be refused.
pub fn one_refusal()
    ensures { (ts : List Token) (s : Script) (f g : TypeFault) → AreInOrder ts → Spells s ts → f ≢ NoMemory → g ≢ NoMemory → Refused f s → Refused g s → f ≡ g }
{}

/// A script that is accepted is refused for want of memory alone.
pub fn accepted_or_refused()
    ensures { (s : Script) (f : TypeFault) → Accepted s → Refused f s → f ≢ NoMemory → ⊥ }
{}
