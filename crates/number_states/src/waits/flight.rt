ghost use Rattle.std.specs.Prelude.{◌≡◌, IfOk};
ghost use Rattle.number_states.specs.waits.Throwing.{without_thrower, thrown_to, first_of, throwers_of};

use hs_base::NoMemory;
use std::alloc::Global;

/// An exception in flight. The exception is a number.
#[derive(Clone, Copy, Debug, PartialEq, Eq)]
pub struct Thrown {
    pub thrower: u32,
    pub target: u32,
    pub exn: u32,
}

/// Takes out the thrower's exception.
pub fn withdraw(list: &mut Vec<Thrown>, thrower: u32)
    ensures { list.new.items ≡ without_thrower thrower list.old.items }
{
    list.retain(|thrown| thrown.thrower != thrower);
}

/// The exception that was thrown first at the target.
pub fn first_to(list: &[Thrown], target: u32) -> Option<Thrown>
    ensures { result ≡ first_of (thrown_to target list.now) }
{
    for thrown in list {
        if thrown.target == target {
            return Some(*thrown);
        }
    }
    None
}

/// The throwers of all exceptions in flight to the target, in order of throwing.
pub fn throwers_to(alloc: Global, list: &[Thrown], target: u32) -> Result<Vec<u32>, NoMemory>
    ensures { IfOk result (λ throwers. throwers.items ≡ throwers_of (thrown_to target list.now)) }
{
    let mut throwers = Vec::new(alloc);
    for thrown in list {
        if thrown.target == target {
            throwers.reserve(1)?;
            throwers.push_reserved(thrown.thrower);
        }
    }
    Ok(throwers)
}

/// An equal list.
pub fn copy_flight(alloc: Global, list: &[Thrown]) -> Result<Vec<Thrown>, NoMemory>
    ensures { IfOk result (λ copy. copy.items ≡ list.now) }
{
    let copy = Vec::from_slice(alloc, list)?;
    Ok(copy)
}
