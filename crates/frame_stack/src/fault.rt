use hs_base::NoMemory;

/// Why there is no slice. The job is dropped.
#[derive(Drop)]
pub enum SliceFault {
    /// The cutter answered the job's ticket.
    Cut { loaded: u64 },
    NoMemory,
}

impl From<NoMemory> for SliceFault {
    ghost use Rattle.std.specs.Prelude.{◌≡◌};
    ghost use Rattle.frame_stack.specs.declared.fault.SliceFault.TheVariants as fault;

    ghost from_gives = { λ _ e. e ≡ fault.NoMemory };

    fn from(_: NoMemory) -> SliceFault {
        SliceFault::NoMemory
    }
}
