//! The types of actions: the walk down a block.
//!
//! To a contract the walk is a step of the checker (`typing_parts/specs/JudgedAs`). The one promise: it leaves the scope as
//! it was, the type that it gives is the one that `typing_judge` gives to the block in that scope, and the kept fault is the
//! least of the one that was kept and of those that `typing_judge` lists.

ghost use Rattle.rules_expansion.specs.trees.Programs.{bl_of};
ghost use Rattle.typing_judge.specs.JudgingActions.{judge_bl};
ghost use Rattle.typing_parts.specs.JudgedAs.{JudgedIn};

mod blocks;
mod closing;
mod opening;
mod simple;

use hs_base::NoMemory;
use hs_base::tree::Block;
use typing_parts::checker::Checker;
use typing_parts::funs::Funs;
use typing_table::ty::TypeTerm;

/// The type of a block, where it has one.
pub fn type_of_block(
    checker: &mut Checker,
    funs: &Funs,
    b: &Block,
) -> Result<Option<TypeTerm>, NoMemory>
    ensures { JudgedIn funs.now checker.old checker.new result (λ c s. judge_bl c s (bl_of b.now)) }
{
    let t = blocks::block(checker, funs, b)?;
    Ok(t)
}
