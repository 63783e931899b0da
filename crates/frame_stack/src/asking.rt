//! The primitive that a thread stands at.
ghost use Rattle.std.specs.Prelude.{◌≡◌, [], ◌∷◌, MatchOption, false};
ghost use Rattle.rules_meaning.specs.Values as val;
ghost use Rattle.rules_meaning.specs.Values.{value_of, values_of};
ghost use Rattle.rules_code.specs.declared.code.CodeBody.{CodeBody};
ghost use Rattle.slot_laws.specs.SlotRules.{calls};
ghost use Rattle.frame_stack.specs.Kinds.{is_of, AreOthers};
ghost use Rattle.frame_stack.specs.Kinds as kind;
ghost use Rattle.frame_stack.specs.Parts.{op_of};

use crate::control::Operation;
use hs_base::{Exn, Txt, Value, Values};
use rules_code::Primitive;

/// A primitive with its values, where they are as many as it takes and of its kinds.
pub fn asked(primitive: Primitive, values: Values) -> Option<Operation>
    ensures { MatchOption result (AreOthers primitive (values_of values)) (λ p. (b : CodeBody) → op_of b p ≡ calls primitive (values_of values)) }
{
    let mut values = values;
    let last = values.pop();
    let first = values.pop();
    if !values.is_empty() {
        return None;
    }
    match (first, last) {
        (None, None) => bare(primitive),
        (None, Some(value)) => of_one(primitive, value),
        (Some(first), Some(second)) => of_two(primitive, first, second),
        (Some(_), None) => None,
    }
}

/// A primitive that takes no value.
fn bare(primitive: Primitive) -> Option<Operation>
    ensures { MatchOption result (AreOthers primitive []) (λ p. (b : CodeBody) → op_of b p ≡ calls primitive []) }
{
    match primitive {
        Primitive::NewEmptyMVar => Some(Operation::NewEmptyMVar),
        Primitive::MyThreadId => Some(Operation::MyThreadId),
        Primitive::GetMaskingState => Some(Operation::GetMaskingState),
        Primitive::ClockMicros => Some(Operation::ClockMicros),
        Primitive::NewTimeout => Some(Operation::NewTimeout),
        Primitive::Acquired => Some(Operation::Acquired),
        _ => None,
    }
}

/// A primitive that takes one value.
#[tactic(auto, using(crate::proofs::Forms::one_other))]
fn of_one(primitive: Primitive, value: Value) -> Option<Operation>
    ensures { MatchOption result (AreOthers primitive (value_of value ∷ [])) (λ p. (b : CodeBody) → op_of b p ≡ calls primitive (value_of value ∷ [])) }
{
    match primitive {
        Primitive::PutStr => Some(Operation::PutStr(text(value)?)),
        Primitive::PutStrLn => Some(Operation::PutStrLn(text(value)?)),
        Primitive::HPutStrLn => Some(Operation::HPutStrLn(text(value)?)),
        Primitive::NewMVar => Some(Operation::NewMVar(value)),
        Primitive::TakeMVar => Some(Operation::TakeMVar(cell(value)?)),
        Primitive::ReadMVar => Some(Operation::ReadMVar(cell(value)?)),
        Primitive::TryTakeMVar => Some(Operation::TryTakeMVar(cell(value)?)),
        Primitive::ThreadDelay => Some(Operation::ThreadDelay(int(value)?)),
        Primitive::Release => Some(Operation::Release(instance(value)?)),
        _ => None,
    }
}

/// A primitive that takes two values.
#[tactic(auto, using(crate::proofs::Forms::two_others))]
fn of_two(primitive: Primitive, first: Value, second: Value) -> Option<Operation>
    ensures { MatchOption result (AreOthers primitive (value_of first ∷ value_of second ∷ [])) (λ p. (b : CodeBody) → op_of b p ≡ calls primitive (value_of first ∷ value_of second ∷ [])) }
{
    match primitive {
        Primitive::PutMVar => Some(Operation::PutMVar(cell(first)?, second)),
        Primitive::TryPutMVar => Some(Operation::TryPutMVar(cell(first)?, second)),
        Primitive::ThrowTo => Some(Operation::ThrowTo(thread(first)?, exn(second)?)),
        _ => None,
    }
}

/// The text that a value is.
#[tactic(auto, using(crate::proofs::Forms::not_text, hs_eval::proofs::Cases::value_forms))]
fn text(value: Value) -> Option<Txt>
    ensures { MatchOption result (is_of kind.a_text (value_of value) ≡ false) (λ t. value_of value ≡ val.Text t) }
{
    match &value {
        Value::Text(_) => value.into_text(),
        _ => None,
    }
}

/// The number that a value is.
#[tactic(auto, using(crate::proofs::Forms::not_int, hs_eval::proofs::Cases::value_forms))]
fn int(value: Value) -> Option<i64>
    ensures { MatchOption result (is_of kind.a_number (value_of value) ≡ false) (λ n. value_of value ≡ val.Int n) }
{
    match &value {
        Value::Int(number) => Some(*number),
        _ => None,
    }
}

/// The cell that a value is.
#[tactic(auto, using(crate::proofs::Forms::not_cell, hs_eval::proofs::Cases::value_forms))]
fn cell(value: Value) -> Option<u32>
    ensures { MatchOption result (is_of kind.a_cell (value_of value) ≡ false) (λ m. value_of value ≡ val.Cell m) }
{
    match &value {
        Value::Cell(cell) => Some(*cell),
        _ => None,
    }
}

/// The thread that a value is.
#[tactic(auto, using(crate::proofs::Forms::not_thread, hs_eval::proofs::Cases::value_forms))]
fn thread(value: Value) -> Option<u32>
    ensures { MatchOption result (is_of kind.a_thread (value_of value) ≡ false) (λ m. value_of value ≡ val.Thread m) }
{
    match &value {
        Value::Thread(thread) => Some(*thread),
        _ => None,
    }
}

/// The exception that a value is.
#[tactic(auto, using(crate::proofs::Forms::not_exn, hs_eval::proofs::Cases::value_forms))]
fn exn(value: Value) -> Option<Exn>
    ensures { MatchOption result (is_of kind.an_exception (value_of value) ≡ false) (λ e. value_of value ≡ val.Exception e) }
{
    match &value {
        Value::Exn(_) => value.into_exn(),
        _ => None,
    }
}

/// The use of `bracket` that a value is.
#[tactic(auto, using(crate::proofs::Forms::not_instance, hs_eval::proofs::Cases::value_forms))]
fn instance(value: Value) -> Option<u32>
    ensures { MatchOption result (is_of kind.an_instance (value_of value) ≡ false) (λ i. value_of value ≡ val.Inst i) }
{
    match &value {
        Value::Inst(number) => Some(*number),
        _ => None,
    }
}
