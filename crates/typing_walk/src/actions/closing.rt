// What actions with two blocks add to their parts.

ghost use Rattle.std.specs.Prelude.{◌≡◌, cond, None};
ghost use Rattle.typing_judge.specs.Judging.{own, with2};
ghost use Rattle.typing_parts.specs.Views.{opt_ty};
ghost use Rattle.typing_walk.specs.actions.Parts.{row_two};
ghost use Rattle.typing_parts.specs.JudgedAs.{JudgedAs};

use hs_base::tree::forms::GuardAction;
use hs_base::{NoMemory, Pos};
use typing_parts::checker::Checker;
use typing_table::table::TypeTable;
use typing_table::ty::TypeTerm;

/// An action with two parts, of which the second is a block in the scope of the first.
#[derive(Clone, Copy)]
pub enum TwoParts {
    /// a word and two blocks
    Guard(GuardAction),
    /// the two blocks under the name of a `bracket`
    Bracket,
    Timeout,
}

/// The type of an action with two parts, where both have one.
pub fn close_two(
    checker: &mut Checker,
    types: &TypeTable,
    p: Pos,
    o: TwoParts,
    t: Option<TypeTerm>,
    u: Option<TypeTerm>,
) -> Result<Option<TypeTerm>, NoMemory>
    ensures { JudgedAs types.now checker.old checker.new result (with2 (opt_ty types.now.nodes t) (opt_ty types.now.nodes u) (λ u v. own p (row_two o u v))) }
{
    match o {
        TwoParts::Guard(w) => checker.close_guard(types, p, w, t, u),
        TwoParts::Bracket => Ok(checker.close_bracket(types, p, t, u)),
        TwoParts::Timeout => checker.close_timeout(types, p, t, u),
    }
}

/// Lets a type go.
pub fn dropped(_t: Option<TypeTerm>) -> Option<TypeTerm>
    ensures { result ≡ None }
{
    None
}

/// The type, where the test holds.
pub fn kept_if(b: bool, t: Option<TypeTerm>) -> Option<TypeTerm>
    ensures { result ≡ cond b t None }
{
    if b { t } else { None }
}
