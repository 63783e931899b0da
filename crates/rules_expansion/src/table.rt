//! What each word of an action comes to, and the steps of each form that stands for others: its template, written out. Those of
//! async scopes are in `scopes`.
ghost use Rattle.std.specs.Prelude.{◌≡◌};
ghost use Rattle.rules_expansion.specs.Templates.{steps};
ghost use Rattle.rules_expansion.specs.Expansion.{bare_row, unary_row, binary_row, block_row, guard_row};

use crate::hidden::Hidden;
use crate::primitive::Primitive;
use crate::scopes::{CANCEL, CONCURRENTLY, RACE, WAIT, WITH_ASYNC};
use crate::template::{Binder, BlockRow, Derived, FormBlock, Operand, Step, UnaryRow};
use hs_base::tree::forms::{BareAction, BinaryAction, BlockAction, GuardAction, UnaryAction};

/// `mask_ A`
const MASK_ONLY: [Step; 4] = [
    Step::Under(Binder::Own(Hidden::Restorer)),
    Step::Hole(FormBlock::First),
    Step::Off,
    Step::Mask,
];

/// `uninterruptibleMask_ A`
const UNINTERRUPTIBLE_MASK_ONLY: [Step; 4] = [
    Step::Under(Binder::Own(Hidden::Restorer)),
    Step::Hole(FormBlock::First),
    Step::Off,
    Step::MaskHard,
];

/// `onException A B`
const ON_EXCEPTION: [Step; 8] = [
    Step::Hole(FormBlock::First),
    Step::Under(Binder::Own(Hidden::Caught)),
    Step::Hole(FormBlock::Second),
    Step::Push(Operand::Read(Binder::Own(Hidden::Caught))),
    Step::Throw,
    Step::Then,
    Step::Off,
    Step::Catch,
];

/// `finally A B`
const FINALLY: [Step; 19] = [
    Step::Under(Binder::Own(Hidden::Restorer)),
    Step::Hole(FormBlock::First),
    Step::Restore(Binder::Own(Hidden::Restorer)),
    Step::Under(Binder::Own(Hidden::Caught)),
    Step::Hole(FormBlock::Second),
    Step::Push(Operand::Read(Binder::Own(Hidden::Caught))),
    Step::Throw,
    Step::Then,
    Step::Off,
    Step::Catch,
    Step::Under(Binder::Own(Hidden::Given)),
    Step::Hole(FormBlock::Second),
    Step::Push(Operand::Read(Binder::Own(Hidden::Given))),
    Step::Return,
    Step::Then,
    Step::Off,
    Step::Bind,
    Step::Off,
    Step::Mask,
];

/// `bracket A x B C`
const BRACKET: [Step; 33] = [
    Step::Under(Binder::Own(Hidden::Restorer)),
    Step::Hole(FormBlock::First),
    Step::Under(Binder::Given),
    Step::Perform(Primitive::Acquired),
    Step::Under(Binder::Own(Hidden::Instance)),
    Step::Hole(FormBlock::Third),
    Step::Restore(Binder::Own(Hidden::Restorer)),
    Step::Under(Binder::Own(Hidden::BracketFault)),
    Step::Push(Operand::Read(Binder::Own(Hidden::Instance))),
    Step::PerformOne(Primitive::Release),
    Step::Hole(FormBlock::Second),
    Step::Push(Operand::Read(Binder::Own(Hidden::BracketFault))),
    Step::Throw,
    Step::Then,
    Step::Then,
    Step::Off,
    Step::Catch,
    Step::Under(Binder::Own(Hidden::BracketResult)),
    Step::Push(Operand::Read(Binder::Own(Hidden::Instance))),
    Step::PerformOne(Primitive::Release),
    Step::Hole(FormBlock::Second),
    Step::Push(Operand::Read(Binder::Own(Hidden::BracketResult))),
    Step::Return,
    Step::Then,
    Step::Then,
    Step::Off,
    Step::Bind,
    Step::Off,
    Step::Bind,
    Step::Off,
    Step::Bind,
    Step::Off,
    Step::Mask,
];

/// `modifyMVar_ a x B`
const MODIFY_MVAR: [Step; 29] = [
    Step::Push(Operand::Subject),
    Step::Under(Binder::Own(Hidden::TheCell)),
    Step::Under(Binder::Own(Hidden::Restorer)),
    Step::Push(Operand::Read(Binder::Own(Hidden::TheCell))),
    Step::PerformOne(Primitive::TakeMVar),
    Step::Under(Binder::Given),
    Step::Hole(FormBlock::First),
    Step::Restore(Binder::Own(Hidden::Restorer)),
    Step::Under(Binder::Own(Hidden::Caught)),
    Step::Push(Operand::Read(Binder::Own(Hidden::TheCell))),
    Step::Push(Operand::Read(Binder::Given)),
    Step::PerformTwo(Primitive::PutMVar),
    Step::Push(Operand::Read(Binder::Own(Hidden::Caught))),
    Step::Throw,
    Step::Then,
    Step::Off,
    Step::Catch,
    Step::Under(Binder::Own(Hidden::Given)),
    Step::Push(Operand::Read(Binder::Own(Hidden::TheCell))),
    Step::Push(Operand::Read(Binder::Own(Hidden::Given))),
    Step::PerformTwo(Primitive::PutMVar),
    Step::Off,
    Step::Bind,
    Step::Off,
    Step::Bind,
    Step::Off,
    Step::Mask,
    Step::Off,
    Step::Let,
];

/// `timeout a B`
const TIMEOUT: [Step; 90] = [
    Step::Push(Operand::Subject),
    Step::Under(Binder::Own(Hidden::Allowed)),
    Step::Push(Operand::BelowZero(Binder::Own(Hidden::Allowed))),
    Step::Hole(FormBlock::First),
    Step::Under(Binder::Own(Hidden::InTime)),
    Step::Push(Operand::JustRead(Binder::Own(Hidden::InTime))),
    Step::Return,
    Step::Off,
    Step::Bind,
    Step::Push(Operand::IsZero(Binder::Own(Hidden::Allowed))),
    Step::Push(Operand::NoValue),
    Step::Return,
    Step::Perform(Primitive::MyThreadId),
    Step::Under(Binder::Own(Hidden::Owner)),
    Step::Perform(Primitive::NewTimeout),
    Step::Under(Binder::Own(Hidden::Expiry)),
    Step::Under(Binder::Own(Hidden::Restorer)),
    Step::Under(Binder::Own(Hidden::HelperRestorer)),
    Step::Push(Operand::Read(Binder::Own(Hidden::Allowed))),
    Step::PerformOne(Primitive::ThreadDelay),
    Step::Push(Operand::Read(Binder::Own(Hidden::Owner))),
    Step::Push(Operand::Read(Binder::Own(Hidden::Expiry))),
    Step::PerformTwo(Primitive::ThrowTo),
    Step::Then,
    Step::Restore(Binder::Own(Hidden::HelperRestorer)),
    Step::Off,
    Step::ForkUnmask,
    Step::Under(Binder::Own(Hidden::Helper)),
    Step::Perform(Primitive::Acquired),
    Step::Under(Binder::Own(Hidden::Instance)),
    Step::Hole(FormBlock::First),
    Step::Under(Binder::Own(Hidden::InTime)),
    Step::Push(Operand::JustRead(Binder::Own(Hidden::InTime))),
    Step::Return,
    Step::Off,
    Step::Bind,
    Step::Restore(Binder::Own(Hidden::Restorer)),
    Step::Under(Binder::Own(Hidden::BracketFault)),
    Step::Push(Operand::Read(Binder::Own(Hidden::Instance))),
    Step::PerformOne(Primitive::Release),
    Step::Under(Binder::Own(Hidden::Restorer)),
    Step::Push(Operand::Read(Binder::Own(Hidden::Helper))),
    Step::Push(Operand::Killed),
    Step::PerformTwo(Primitive::ThrowTo),
    Step::Off,
    Step::MaskHard,
    Step::Push(Operand::Read(Binder::Own(Hidden::BracketFault))),
    Step::Throw,
    Step::Then,
    Step::Then,
    Step::Off,
    Step::Catch,
    Step::Under(Binder::Own(Hidden::BracketResult)),
    Step::Push(Operand::Read(Binder::Own(Hidden::Instance))),
    Step::PerformOne(Primitive::Release),
    Step::Under(Binder::Own(Hidden::Restorer)),
    Step::Push(Operand::Read(Binder::Own(Hidden::Helper))),
    Step::Push(Operand::Killed),
    Step::PerformTwo(Primitive::ThrowTo),
    Step::Off,
    Step::MaskHard,
    Step::Push(Operand::Read(Binder::Own(Hidden::BracketResult))),
    Step::Return,
    Step::Then,
    Step::Then,
    Step::Off,
    Step::Bind,
    Step::Off,
    Step::Bind,
    Step::Off,
    Step::Bind,
    Step::Off,
    Step::Mask,
    Step::Under(Binder::Own(Hidden::Caught)),
    Step::Push(Operand::SameExn(Binder::Own(Hidden::Caught), Binder::Own(Hidden::Expiry))),
    Step::Push(Operand::NoValue),
    Step::Return,
    Step::Push(Operand::Read(Binder::Own(Hidden::Caught))),
    Step::Throw,
    Step::If,
    Step::Off,
    Step::Catch,
    Step::Off,
    Step::Bind,
    Step::Off,
    Step::Bind,
    Step::If,
    Step::If,
    Step::Off,
    Step::Let,
];

/// The steps that make the nodes of a form.
pub fn steps(form: Derived) -> &'static [Step]
    ensures { result.now ≡ steps form }
{
    match form {
        Derived::MaskOnly => &MASK_ONLY,
        Derived::UninterruptibleMaskOnly => &UNINTERRUPTIBLE_MASK_ONLY,
        Derived::OnException => &ON_EXCEPTION,
        Derived::Finally => &FINALLY,
        Derived::Bracket => &BRACKET,
        Derived::ModifyMVar => &MODIFY_MVAR,
        Derived::Timeout => &TIMEOUT,
        Derived::WithAsync => &WITH_ASYNC,
        Derived::Wait => &WAIT,
        Derived::Cancel => &CANCEL,
        Derived::Race => &RACE,
        Derived::Concurrently => &CONCURRENTLY,
    }
}

/// The primitive of an action without a part.
pub fn bare_row(word: BareAction) -> Primitive
    ensures { result ≡ bare_row word }
{
    match word {
        BareAction::MyThreadId => Primitive::MyThreadId,
        BareAction::ClockMicros => Primitive::ClockMicros,
        BareAction::GetMaskingState => Primitive::GetMaskingState,
    }
}

/// What an action with one expression comes to.
pub fn unary_row(word: UnaryAction) -> UnaryRow
    ensures { result ≡ unary_row word }
{
    match word {
        UnaryAction::Return => UnaryRow::Return,
        UnaryAction::PutStr => UnaryRow::Perform(Primitive::PutStr),
        UnaryAction::PutStrLn => UnaryRow::Perform(Primitive::PutStrLn),
        UnaryAction::HPutStrLn => UnaryRow::Perform(Primitive::HPutStrLn),
        UnaryAction::NewMVar => UnaryRow::Perform(Primitive::NewMVar),
        UnaryAction::TakeMVar => UnaryRow::Perform(Primitive::TakeMVar),
        UnaryAction::ReadMVar => UnaryRow::Perform(Primitive::ReadMVar),
        UnaryAction::TryTakeMVar => UnaryRow::Perform(Primitive::TryTakeMVar),
        UnaryAction::KillThread => UnaryRow::Kill,
        UnaryAction::ThreadDelay => UnaryRow::Perform(Primitive::ThreadDelay),
        UnaryAction::Wait => UnaryRow::Derived(Derived::Wait),
        UnaryAction::Cancel => UnaryRow::Derived(Derived::Cancel),
    }
}

/// The primitive of an action with two expressions.
pub fn binary_row(word: BinaryAction) -> Primitive
    ensures { result ≡ binary_row word }
{
    match word {
        BinaryAction::PutMVar => Primitive::PutMVar,
        BinaryAction::TryPutMVar => Primitive::TryPutMVar,
        BinaryAction::ThrowTo => Primitive::ThrowTo,
    }
}

/// What an action with one block comes to.
pub fn block_row(word: BlockAction) -> BlockRow
    ensures { result ≡ block_row word }
{
    match word {
        BlockAction::ForkIo => BlockRow::Fork,
        BlockAction::MaskOnly => BlockRow::Derived(Derived::MaskOnly),
        BlockAction::UninterruptibleMaskOnly => BlockRow::Derived(Derived::UninterruptibleMaskOnly),
    }
}

/// The form of an action with two blocks.
pub fn guard_row(word: GuardAction) -> Derived
    ensures { result ≡ guard_row word }
{
    match word {
        GuardAction::OnException => Derived::OnException,
        GuardAction::Finally => Derived::Finally,
        GuardAction::Race => Derived::Race,
        GuardAction::Concurrently => Derived::Concurrently,
    }
}
