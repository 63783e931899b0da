//! Numbers in keys.
ghost use Rattle.std.specs.Prelude.{◌≡◌, ◌++◌, ◌∷◌, [], OnOk};
ghost use Rattle.number_tables.specs.value_keys.Keys as keys;

use hs_base::{Mask, NoMemory};

/// A key has at most so many numbers. A value that holds another many times over would have a longer one than can be written in
/// any time.
const LONGEST: usize = 16_777_216;

/// Puts a number at the end of a list. To one of 16,777,216 numbers none is added, as where memory runs out.
pub fn put(out: &mut Vec<u32>, number: u32) -> Result<(), NoMemory>
    ensures { OnOk result (out.new.items ≡ out.old.items ++ number ∷ []) }
{
    if out.len() >= LONGEST {
        return Err(NoMemory);
    }
    match out.push(number) {
        Ok(()) => Ok(()),
        Err(_) => Err(NoMemory),
    }
}

/// Puts a number at the end of a list, in two parts.
pub fn put_wide(out: &mut Vec<u32>, number: u64) -> Result<(), NoMemory>
    ensures { OnOk result (out.new.items ≡ out.old.items ++ keys.wide_key number) }
{
    put(out, (number / 4294967296) as u32)?;
    put(out, (number % 4294967296) as u32)
}

/// The number of a masking state.
pub fn mask_number(mask: Mask) -> u32
    ensures { result ≡ keys.mask_number mask }
{
    match mask {
        Mask::Unmasked => 0,
        Mask::Masked => 1,
        Mask::Uninterruptible => 2,
    }
}
