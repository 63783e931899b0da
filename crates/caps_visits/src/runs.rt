//! What a capability needs of the value that is run.
ghost use Rattle.std.specs.Prelude.{◌≡◌, ◌↔◌, IsTrue, IfOk, IfSome};
ghost use mathlib.Core.List.{IsPrefix};
ghost use Rattle.rules_code.specs.Codes.{body_of};
ghost use Rattle.hs_rules.specs.declared.kept.Plan.{Plan};

use hs_base::NoMemory;
use hs_io::Cutter;
use hs_rules::{Kept, Ticketed};
use rules_code::{Code, CodeBody};
use std::alloc::Global;

/// Why there is no slice of a job.
#[derive(Drop)]
pub enum Unsliced {
    /// Its cutter named it: the job was overtaken, and its ticket is taken back, or there is an ending.
    Cut,
    NoMemory,
}

/// A kept value that hands out jobs and takes their slices back.
pub trait Runs<J: Ticketed, S: Ticketed>: Kept {
    ghost has_ended: { Self → Type 0 };

    /// Answers an equal code to the one that its jobs and slices belong to.
    fn code(&self) -> Result<Code, NoMemory>
        ensures { IfOk result (λ code. body_of code ≡ (Self.plan self.now).body) };

    fn is_ended(&self) -> bool
        ensures { IsTrue result ↔ has_ended self.now };

    /// Does all that needs no slice. Where memory runs out there is an ending.
    fn settle(&mut self) -> Result<(), NoMemory>
        ensures plan { Self.plan self.new ≡ Self.plan self.old }
        ensures history { IsPrefix (Self.history self.old) (Self.history self.new) };

    /// A job that isn't out yet, if there is one. Where memory runs out there is an ending.
    fn next_job(&mut self) -> Result<Option<J>, NoMemory>
        ensures plan { Self.plan self.new ≡ Self.plan self.old }
        ensures history { IsPrefix (Self.history self.old) (Self.history self.new) }
        ensures code { IfOk result (λ found. IfSome found (λ job. J.belongs job ≡ (Self.plan self.old).body)) };

    /// Takes a slice back. Whether it was taken, or stale.
    fn commit(&mut self, slice: S) -> bool
        requires { S.belongs slice ≡ (Self.plan self.old).body }
        ensures plan { Self.plan self.new ≡ Self.plan self.old }
        ensures history { IsPrefix (Self.history self.old) (Self.history self.new) };

    /// The ticket of a job that was overtaken, which it takes back.
    fn overtaken(&mut self) -> Option<u64>
        ensures plan { Self.plan self.new ≡ Self.plan self.old }
        ensures history { IsPrefix (Self.history self.old) (Self.history self.new) };

    /// Sets an ending where there is none.
    fn no_memory(&mut self)
        ensures plan { Self.plan self.new ≡ Self.plan self.old }
        ensures history { IsPrefix (Self.history self.old) (Self.history self.new) }
        ensures ended { has_ended self.new };

    /// Runs it to an ending, with nobody else.
    fn alone(&mut self)
        ensures plan { Self.plan self.new ≡ Self.plan self.old }
        ensures history { IsPrefix (Self.history self.old) (Self.history self.new) }
        ensures ended { has_ended self.new };

    /// The slice of a job of this code.
    fn slice<C: Cutter>(alloc: Global, code: &Code, job: J, cutter: &mut C) -> Result<S, Unsliced>
        requires { J.belongs job ≡ body_of code.now }
        ensures { IfOk result (λ slice. S.belongs slice ≡ body_of code.now) };
}
