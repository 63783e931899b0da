//! Copies of values.
ghost use Rattle.std.specs.Prelude.{◌≡◌, ◌≤◌, ◌+◌, ◌++◌, ◌<◌, ◌^◌, length, IfOk, vec_len, vec_capacity};
ghost use Rattle.local_steps.specs.environments.Envs.{base_of};

use hs_base::{NoMemory, Value, Values};
use hs_items::{Items, Shared};
use std::alloc::Global;

/// Equal values, and room for so many more.
pub fn copied(alloc: Global, values: &[Value], more: usize) -> Result<Vec<Value>, NoMemory>
    ensures same { IfOk result (λ vs. vs.items ≡ values.now) }
    ensures room { IfOk result (λ vs. vec_len vs + more ≤ vec_capacity vs) }
{
    let Some(places) = values.len().checked_add(more) else {
        return Err(NoMemory);
    };
    let mut copies = Vec::with_capacity(alloc, places)?;
    for value in values {
        copies.push_reserved(value.copy(alloc)?);
    }
    Ok(copies)
}

/// The values that are shared, by one more owner.
pub fn shared(base: &Option<Shared<Values>>) -> Result<Option<Shared<Values>>, NoMemory>
    ensures { IfOk result (λ b. base_of b ≡ base_of base.now) }
{
    match base {
        None => Ok(None),
        Some(values) => Ok(Some(values.share()?)),
    }
}

/// Shared values and those behind them, as one shared list.
pub fn joined(
    alloc: Global,
    base: &Option<Shared<Values>>,
    own: &Values,
) -> Result<Shared<Values>, NoMemory>
    ensures all { IfOk result (λ vs. vs ≡ base_of base.now ++ own.now) }
    ensures few { IfOk result (λ vs. length vs < 2 ^ 32) }
{
    let rest = Items::from_vec(copied(alloc, own.as_slice(), 0)?);
    let all = match base {
        None => rest,
        Some(first) => {
            let mut all = Items::from_vec(copied(alloc, first.get().as_slice(), own.len())?);
            all.append(rest)?;
            all
        }
    };
    few(alloc, all)
}

/// Values as a shared list. There are less than 2^32.
pub fn few(alloc: Global, values: Values) -> Result<Shared<Values>, NoMemory>
    ensures same { IfOk result (λ vs. vs ≡ values) }
    ensures few { IfOk result (λ vs. length vs < 2 ^ 32) }
{
    if values.len() > u32::MAX as usize {
        return Err(NoMemory);
    }
    Ok(Shared::new(alloc, values)?)
}
