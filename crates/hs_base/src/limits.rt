ghost use Rattle.std.specs.Prelude.{◌≡◌};

/// How much a run may use: threads and cells ever made, frames over all unfinished threads, and bytes of output and
/// error output together (own).
#[derive(Clone, Copy, Debug, PartialEq, Eq)]
pub struct Limits {
    pub threads: u32,
    pub cells: u32,
    pub frames: u32,
    pub output: u32,
}

impl Limits {
    /// The limits of the program.
    pub fn shipped() -> Limits
        ensures threads { result.threads ≡ 65536 }
        ensures cells { result.cells ≡ 262144 }
        ensures frames { result.frames ≡ 200000 }
        ensures output { result.output ≡ 8388608 }
    {
        Limits {
            threads: 65_536,
            cells: 262_144,
            frames: 200_000,
            output: 8_388_608,
        }
    }
}
