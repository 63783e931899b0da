//! What a thread does next.

ghost use Rattle.std.specs.Prelude.{◌≡◌, IfOk};

use hs_base::{Exn, NoMemory, Txt, Value};
use local_steps::environments::Env;
use rules_code::ActId;
use std::alloc::Global;

/// What only the world answers: a primitive with its values, or a fork. Cells, threads and uses of `bracket` are numbers.
#[derive(Drop)]
pub enum Operation {
    PutStr(Txt),
    PutStrLn(Txt),
    HPutStrLn(Txt),
    NewMVar(Value),
    NewEmptyMVar,
    TakeMVar(u32),
    PutMVar(u32, Value),
    ReadMVar(u32),
    TryTakeMVar(u32),
    TryPutMVar(u32, Value),
    MyThreadId,
    GetMaskingState,
    ClockMicros,
    /// The microseconds.
    ThreadDelay(i64),
    ThrowTo(u32, Exn),
    NewTimeout,
    Acquired,
    Release(u32),
    Fork(ActId, Env),
    /// The next slot takes the unmasked state.
    ForkUnmask(ActId, Env),
}

impl Operation {
    /// An equal operation, which shares its values: it takes constant time. The environment of a fork takes memory.
    pub fn copy(&self, alloc: Global) -> Result<Operation, NoMemory>
        ensures { IfOk result (λ o. o ≡ self.now) }
    {
        match self {
            Operation::PutStr(text) => Ok(Operation::PutStr(text.copy(alloc)?)),
            Operation::PutStrLn(text) => Ok(Operation::PutStrLn(text.copy(alloc)?)),
            Operation::HPutStrLn(text) => Ok(Operation::HPutStrLn(text.copy(alloc)?)),
            Operation::NewMVar(value) => Ok(Operation::NewMVar(value.copy(alloc)?)),
            Operation::NewEmptyMVar => Ok(Operation::NewEmptyMVar),
            Operation::TakeMVar(cell) => Ok(Operation::TakeMVar(*cell)),
            Operation::PutMVar(cell, value) => Ok(Operation::PutMVar(*cell, value.copy(alloc)?)),
            Operation::ReadMVar(cell) => Ok(Operation::ReadMVar(*cell)),
            Operation::TryTakeMVar(cell) => Ok(Operation::TryTakeMVar(*cell)),
            Operation::TryPutMVar(cell, value) => Ok(Operation::TryPutMVar(
                *cell,
                value.copy(alloc)?,
            )),
            Operation::MyThreadId => Ok(Operation::MyThreadId),
            Operation::GetMaskingState => Ok(Operation::GetMaskingState),
            Operation::ClockMicros => Ok(Operation::ClockMicros),
            Operation::ThreadDelay(micros) => Ok(Operation::ThreadDelay(*micros)),
            Operation::ThrowTo(target, exn) => Ok(Operation::ThrowTo(*target, exn.copy(alloc)?)),
            Operation::NewTimeout => Ok(Operation::NewTimeout),
            Operation::Acquired => Ok(Operation::Acquired),
            Operation::Release(instance) => Ok(Operation::Release(*instance)),
            Operation::Fork(action, env) => Ok(Operation::Fork(*action, env.copy(alloc)?)),
            Operation::ForkUnmask(action, env) => Ok(Operation::ForkUnmask(
                *action,
                env.copy(alloc)?,
            )),
        }
    }
}

/// The active part of a thread.
#[derive(Drop)]
pub enum Control {
    /// The thread is to do this action, with these values of its slots.
    Doing(ActId, Env),
    Ret(Value),
    Throw(Exn),
    Op(Operation),
}
