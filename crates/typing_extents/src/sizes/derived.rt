//! The forms that stand for others: a walk over the steps of a form's template.
ghost use Rattle.std.specs.Prelude.{◌≡◌, min};
ghost use Rattle.rules_expansion.specs.Templates.{Filling};
ghost use Rattle.rules_expansion.specs.Expansion.{of_three, derived};
ghost use Rattle.rules_expansion.specs.Sizes.{core_size, operand_size, step_size};
ghost use Rattle.typing_extents.specs.sizes.Counted.{Counted};

use crate::sizes::count::add;
use rules_expansion::{Derived, FormBlock, Operand, Step, steps};

/// What stands for the expression of a form that has none: `Nothing`.
pub const NO_EXPRESSION: u32 = 1;

/// What stands for the block of a form that has none: `return Nothing`.
pub const NO_BLOCK: u32 = 2;

/// The nodes of a form, by those of its expression and of its blocks. A form with fewer than three has its last one in
/// their places: no step asks for those.
pub fn derived_nodes(form: Derived, subject: u32, first: u32, second: u32, third: u32) -> u32
    ensures { (f : Filling) → Counted f subject first second third → result ≡ min (core_size (derived form f)) 1000001 }
{
    let mut n = 0;
    'each: for step in steps(form) {
        n = add(n, step_nodes(*step, subject, first, second, third));
    }
    n
}

/// What a step puts on.
fn step_nodes(step: Step, subject: u32, first: u32, second: u32, third: u32) -> u32
    ensures { result ≡ step_size subject (of_three first second third) step }
{
    match step {
        Step::Hole(FormBlock::First) => first,
        Step::Hole(FormBlock::Second) => second,
        Step::Hole(FormBlock::Third) => third,
        Step::Push(e) => operand_nodes(e, subject),
        Step::Under(_) | Step::Off => 0,
        Step::Return | Step::Throw | Step::Let | Step::Bind | Step::Then => 1,
        Step::If | Step::CaseEither | Step::Fork => 1,
        Step::Perform(_) | Step::PerformOne(_) | Step::PerformTwo(_) => 1,
        Step::ForkUnmask | Step::Catch | Step::Mask | Step::MaskHard | Step::Restore(_) => 1,
    }
}

/// The expression of a step.
fn operand_nodes(e: Operand, subject: u32) -> u32
    ensures { result ≡ operand_size subject e }
{
    match e {
        Operand::Subject => subject,
        Operand::Read(_) | Operand::NoValue | Operand::Killed | Operand::Nil => 1,
        Operand::JustRead(_) | Operand::LeftRead(_) | Operand::RightRead(_) => 2,
        Operand::RightNil | Operand::FirstOf(_) | Operand::SecondOf(_) => 2,
        Operand::BelowZero(_) | Operand::IsZero(_) | Operand::SameExn(_, _) => 3,
        Operand::RightLeft(_) | Operand::RightRight(_) | Operand::PairRead(_, _) => 3,
    }
}
