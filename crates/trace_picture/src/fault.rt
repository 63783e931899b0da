use hs_base::NoMemory;
use trace_checker::RunFault;

/// Why there is no picture of a text.
#[derive(Clone, Copy, Debug, PartialEq, Eq)]
pub enum PictureFault {
    /// The text isn't a trace of a run of the script, or there is no memory to say so.
    Run(RunFault),
    /// It is one with so many entries, which are more than 10,000.
    Large(u32),
}

impl From<RunFault> for PictureFault {
    ghost use Rattle.std.specs.Prelude.{◌≡◌};
    ghost use Rattle.trace_picture.specs.declared.fault.PictureFault.TheVariants as fault;

    ghost from_gives = { λ f e. e ≡ fault.Run f };

    fn from(fault: RunFault) -> PictureFault {
        PictureFault::Run(fault)
    }
}

impl From<NoMemory> for PictureFault {
    ghost use Rattle.std.specs.Prelude.{◌≡◌};
    ghost use Rattle.trace_checker.specs.declared.verdict.RunFault.TheVariants as run;
    ghost use Rattle.trace_picture.specs.declared.fault.PictureFault.TheVariants as fault;

    ghost from_gives = { λ _ e. e ≡ fault.Run run.NoMemory };

    fn from(_: NoMemory) -> PictureFault {
        PictureFault::Run(RunFault::NoMemory)
    }
}
