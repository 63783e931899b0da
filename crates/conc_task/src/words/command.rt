ghost use Rattle.std.specs.Prelude.{◌≡◌, ◌↔◌, ◌≢◌};
ghost use Rattle.clap.specs.Words.{kind_of};
ghost use Rattle.clap.specs.declared.error.kind.ErrorKind.TheVariants.{OutOfMemory};
ghost use Rattle.conc_task.specs.declared.words.command.WordsFault.TheVariants.{NoMemory, NotUnderstood};

use clap::error::ErrorKind;
use hs_base::ClockChoice;
use std::alloc::AllocError;

/// What the words ask for.
#[derive(Clone, Copy, Debug, PartialEq, Eq)]
pub enum Command {
    /// `run`: checks the script on the source and runs it.
    Run {
        /// How many threads may evaluate at a time, 1 to 16.
        capabilities: u8,
        /// How many steps the run may take, 1 to 4,000,000.
        fuel: u32,
        clock: ClockChoice,
    },
    /// `check`: checks the script on the source alone.
    Check,
    /// `bench N`: runs a script of the program's own.
    Bench {
        /// How many threads the script forks, 1 to 4,000.
        threads: u32,
        /// How many threads may evaluate at a time, 1 to 16.
        capabilities: u8,
        /// How many steps the run may take, 1 to 4,000,000.
        fuel: u32,
    },
    /// `trace`: runs the script on the source as `run` does, and writes its history in place of what it prints.
    Trace {
        /// How many threads may evaluate at a time, 1 to 16.
        capabilities: u8,
        /// How many steps the run may take, 1 to 4,000,000.
        fuel: u32,
        clock: ClockChoice,
    },
    /// `outcomes`: lists every outcome of the script on the source, or writes down a run that comes to one of them.
    Outcomes {
        clock: ClockChoice,
        /// The most states that are kept, 1 to 4,000,000.
        states: u32,
        /// The most steps of a run, 1 to 4,000,000.
        fuel: u32,
        /// The number of the outcome whose run is written, from 1.
        witness: Option<u32>,
    },
    /// `claims`: says which claims of the script on the source hold.
    Claims {
        clock: ClockChoice,
        /// The most states that are kept, 1 to 4,000,000.
        states: u32,
        /// The most steps of a run, 1 to 4,000,000.
        fuel: u32,
    },
    /// `haskell`: prints the script on the source as a Haskell module.
    Haskell,
    /// `verify`, `report` and `picture`: answers a question about the document on the source.
    Ask(Question),
}

/// What is asked of a document.
#[derive(Clone, Copy, Debug, PartialEq, Eq)]
pub enum Question {
    /// `verify`: whether it is a run of its script.
    Verify,
    /// `report`: what each thread and each cell of that run did, in numbers.
    Report,
    /// `picture`: that run, drawn.
    Picture,
}

/// Why the words gave no command.
#[derive(Clone, Copy, Debug, PartialEq, Eq)]
pub enum WordsFault {
    /// The words are no command.
    NotUnderstood,
    /// Want of memory.
    NoMemory,
}

impl From<AllocError> for WordsFault {
    ghost from_gives = { λ _ fault. fault ≡ NoMemory };

    fn from(_: AllocError) -> WordsFault {
        WordsFault::NoMemory
    }
}

impl From<clap::Error> for WordsFault {
    ghost from_gives = { λ error fault. (fault ≡ NoMemory) ↔ (kind_of error ≡ OutOfMemory) };

    fn from(error: clap::Error) -> WordsFault {
        match error.kind() {
            ErrorKind::OutOfMemory => WordsFault::NoMemory,
            _ => WordsFault::NotUnderstood,
        }
    }
}
