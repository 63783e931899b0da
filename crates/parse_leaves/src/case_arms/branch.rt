ghost use Rattle.std.specs.Prelude.{◌≡◌};
ghost use Rattle.hs_base.specs.declared.tree.action.BlockArms.TheVariants as block_arm;
ghost use Rattle.hs_base.specs.declared.tree.expr.ExprArms.TheVariants as expr_arm;
ghost use Rattle.hs_base.specs.declared.tree.expr.Name.{Name};
ghost use Rattle.rules_grammar.specs.Grammar as g;
ghost use Rattle.rules_grammar.specs.GrammarForms.{Rule};

use hs_base::{Block, BlockArms, Expr, ExprArms, Name};

/// What an arm leads to: an expression or a block.
pub trait Branch: Drop {
    /// The four kinds of arms with such branches.
    type Arms: Drop;

    /// The rule of the grammar that a branch is spelled by.
    ghost rule: { Rule Self };

    ghost of_maybe: { Self → Name → Self → Self.Arms };

    ghost of_either: { Name → Self → Name → Self → Self.Arms };

    ghost of_list: { Self → Name → Name → Self → Self.Arms };

    ghost of_pair: { Name → Name → Self → Self.Arms };

    /// The arms of `Nothing` and `Just`.
    fn maybe(nothing: Self, name: Name, just: Self) -> Self::Arms
        ensures { result ≡ of_maybe nothing name just };

    /// The arms of `Left` and `Right`.
    fn either(left: Name, a: Self, right: Name, b: Self) -> Self::Arms
        ensures { result ≡ of_either left a right b };

    /// The arms of the empty list and of one with items.
    fn list(empty: Self, first: Name, rest: Name, items: Self) -> Self::Arms
        ensures { result ≡ of_list empty first rest items };

    /// The arm of a pair.
    fn pair(first: Name, second: Name, arm: Self) -> Self::Arms
        ensures { result ≡ of_pair first second arm };
}

impl Branch for Expr {
    type Arms = ExprArms;

    ghost rule = { g.expr };

    ghost of_maybe = { expr_arm.OfMaybe };

    ghost of_either = { expr_arm.OfEither };

    ghost of_list = { expr_arm.OfList };

    ghost of_pair = { expr_arm.OfPair };

    fn maybe(nothing: Expr, name: Name, just: Expr) -> ExprArms {
        ExprArms::OfMaybe(nothing, name, just)
    }

    fn either(left: Name, a: Expr, right: Name, b: Expr) -> ExprArms {
        ExprArms::OfEither(left, a, right, b)
    }

    fn list(empty: Expr, first: Name, rest: Name, items: Expr) -> ExprArms {
        ExprArms::OfList(empty, first, rest, items)
    }

    fn pair(first: Name, second: Name, arm: Expr) -> ExprArms {
        ExprArms::OfPair(first, second, arm)
    }
}

impl Branch for Block {
    type Arms = BlockArms;

    ghost rule = { g.block };

    ghost of_maybe = { block_arm.OfMaybe };

    ghost of_either = { block_arm.OfEither };

    ghost of_list = { block_arm.OfList };

    ghost of_pair = { block_arm.OfPair };

    fn maybe(nothing: Block, name: Name, just: Block) -> BlockArms {
        BlockArms::OfMaybe(nothing, name, just)
    }

    fn either(left: Name, a: Block, right: Name, b: Block) -> BlockArms {
        BlockArms::OfEither(left, a, right, b)
    }

    fn list(empty: Block, first: Name, rest: Name, items: Block) -> BlockArms {
        BlockArms::OfList(empty, first, rest, items)
    }

    fn pair(first: Name, second: Name, arm: Block) -> BlockArms {
        BlockArms::OfPair(first, second, arm)
    }
}
