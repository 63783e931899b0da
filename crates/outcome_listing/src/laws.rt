ghost use Rattle.std.specs.Prelude.{◌≡◌, ℕ, List};
ghost use Rattle.outcome_listing.specs.declared.explored.Explored.{Explored as AnExplored};
ghost use Rattle.outcome_listing.specs.Finals.{outcomes_of};
ghost use Rattle.outcome_listing.specs.Listing.{text_lines, listing_of};

/// Two texts with the same lines are equal: whether a text ends in a line feed shows too.
#[tactic(auto, using(crate::proofs::Reading::one_text))]
pub fn lines_say_their_text()
    ensures { (a b : List ℕ) → text_lines a ≡ text_lines b → a ≡ b }
{}

/// Two lists of outcomes with one text have equal ends, outputs and errors, one by one.
#[tactic(auto, using(crate::proofs::Reading::one_list))]
pub fn listings_say_their_outcomes()
    ensures { (e f : AnExplored) → listing_of e ≡ listing_of f → outcomes_of e.outcomes ≡ outcomes_of f.outcomes }
{}
