ghost use Rattle.std.specs.Prelude.{◌≡◌, ◌+◌, min, max};

/// The greatest count; it stands for all greater ones.
const MOST: u32 = 1000001;

/// The sum, up to the greatest count.
pub fn add(a: u32, b: u32) -> u32
    ensures { result ≡ min (a + b) 1000001 }
{
    if a >= MOST || b >= MOST {
        return MOST;
    }
    let sum = a + b;
    if sum < MOST { sum } else { MOST }
}

/// The greater of two counts.
pub fn greater(a: u32, b: u32) -> u32
    ensures { result ≡ max a b }
{
    if a < b { b } else { a }
}
