ghost use Rattle.std.specs.Prelude.{◌≡◌, ℕ};

/// What may cut a slice short. A slice asks it now and then whether its job is still wanted.
pub trait Cutter {
    /// The number that it answered last. 0 cuts nobody.
    ghost last: { Self → ℕ };

    /// The ticket of the job whose slice is to end, or 0.
    fn look(&mut self) -> u64
        ensures { last self.new ≡ result };
}

/// A cutter that cuts nobody.
#[derive(Clone, Copy, Debug)]
pub struct NeverCut;

impl Cutter for NeverCut {
    ghost last = { λ c. 0 };

    fn look(&mut self) -> u64 {
        0
    }
}
