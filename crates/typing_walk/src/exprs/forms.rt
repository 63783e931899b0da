//! The forms that the operators and alternatives of a tree stand for.
ghost use Rattle.std.specs.Prelude.{◌≡◌};
ghost use Rattle.rules_expansion.specs.trees.Trees.{arms_of, compare_form, sum_form};
ghost use Rattle.rules_typing.specs.Typing.{form_of_arms};
ghost use Rattle.typing_parts.specs.Views.{form_of};

use hs_base::tree::forms::BinaryForm;
use hs_base::tree::{CompareOp, ExprArms, SumOp};
use typing_parts::Form;

/// A comparison as a form.
pub fn compare_form(op: CompareOp) -> BinaryForm
    ensures { result ≡ compare_form op }
{
    match op {
        CompareOp::Equal => BinaryForm::Equal,
        CompareOp::Unequal => BinaryForm::Unequal,
        CompareOp::Less => BinaryForm::Less,
        CompareOp::AtMost => BinaryForm::AtMost,
        CompareOp::Greater => BinaryForm::Greater,
        CompareOp::AtLeast => BinaryForm::AtLeast,
    }
}

/// `+` or `-` as a form.
pub fn sum_form(op: SumOp) -> BinaryForm
    ensures { result ≡ sum_form op }
{
    match op {
        SumOp::Plus => BinaryForm::Plus,
        SumOp::Minus => BinaryForm::Minus,
    }
}

/// The form of types that the alternatives of a `case` ask for.
#[tactic(auto, using(rules_expansion::proofs::trees_lemmas::Equations::arms_rules))]
pub fn asked_form(arms: &ExprArms) -> Form
    ensures { form_of result ≡ form_of_arms (arms_of arms.now) }
{
    match arms {
        ExprArms::OfMaybe(_, _, _) => Form::Maybe,
        ExprArms::OfEither(_, _, _, _) => Form::Either,
        ExprArms::OfList(_, _, _, _) => Form::List,
        ExprArms::OfPair(_, _, _) => Form::Pair,
    }
}
