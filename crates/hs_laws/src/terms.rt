//! Terms as trees, and as an active part in its frames.

ghost use Rattle.std.specs.Prelude.{◌≡◌, ℕ};
ghost use Rattle.rules_meaning.specs.CoreMeaning.{Code};
ghost use Rattle.hs_rules.specs.Terms.{Part, Term, term, mask_at};
ghost use Rattle.hs_rules.specs.LocalRules.{local, locals};
ghost use Rattle.hs_laws.specs.TermTrees.{Tree, tree_of, leaf, active, mask_of, replace, map_tree, tree_local, tree_locals};

/// A part in its frames stands for one tree, and each tree is stood for. The local rules, the active part, its masking
/// state and what is put in its place are the same of both.
pub fn terms_are_trees()
    ensures each { (t : Tree) → (u : Term) × (tree_of u ≡ t) }
    ensures one { (t u : Term) → tree_of t ≡ tree_of u → t ≡ u }
    ensures rule { (code : Code) (t : Term) → tree_local code (tree_of t) ≡ map_tree tree_of (local code t.part t.frames) }
    ensures rules { (code : Code) (k : ℕ) (t : Term) → tree_locals code k (tree_of t) ≡ map_tree tree_of (locals code k t) }
    ensures part { (t : Term) → active (tree_of t) ≡ t.part }
    ensures mask { (t : Term) → mask_of (tree_of t) ≡ mask_at t.frames }
    ensures place { (t : Term) (p : Part) → replace (tree_of t) (leaf p) ≡ tree_of (term p t.frames) }
{}
