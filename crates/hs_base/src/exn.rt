ghost use Rattle.std.specs.Prelude.{◌≡◌, ◌↔◌, IfOk, IsTrue};
ghost use Rattle.hs_base.specs.ExceptionTexts.{text_of};

use crate::no_memory::NoMemory;
use crate::text::Txt;
use std::alloc::Global;

/// An exception of a script (`Control.Exception`, `System.Timeout`).
#[derive(Debug)]
pub enum Exn {
    /// `ErrorCall x`
    ErrorCall(Txt),
    ThreadKilled,
    UserInterrupt,
    DivideByZero,
    Overflow,
    /// The exception that the timeout of this number throws.
    Timeout(u32),
    /// A text of more than 65,536 bytes (own).
    TextLimit,
    /// What a thread gets that waits at a cell where nothing else can go on. No script can write it.
    BlockedIndefinitely,
}

// Written out, so that it is proved once, here, and not in each function above that lets one go.
impl Drop for Exn {
    fn drop(self) {
        match self {
            Exn::ErrorCall(_) => {}
            Exn::ThreadKilled => {}
            Exn::UserInterrupt => {}
            Exn::DivideByZero => {}
            Exn::Overflow => {}
            Exn::Timeout(_) => {}
            Exn::TextLimit => {}
            Exn::BlockedIndefinitely => {}
        }
    }
}

impl Exn {
    /// An equal exception.
    pub fn copy(&self, alloc: Global) -> Result<Exn, NoMemory>
        ensures { IfOk result (λ e. e ≡ self.now) }
    {
        match self {
            Exn::ErrorCall(text) => Ok(Exn::ErrorCall(text.copy(alloc)?)),
            Exn::ThreadKilled => Ok(Exn::ThreadKilled),
            Exn::UserInterrupt => Ok(Exn::UserInterrupt),
            Exn::DivideByZero => Ok(Exn::DivideByZero),
            Exn::Overflow => Ok(Exn::Overflow),
            Exn::Timeout(n) => Ok(Exn::Timeout(*n)),
            Exn::TextLimit => Ok(Exn::TextLimit),
            Exn::BlockedIndefinitely => Ok(Exn::BlockedIndefinitely),
        }
    }

    /// Whether constructor and content are the same.
    pub fn same(&self, other: &Exn) -> bool
        ensures { IsTrue result ↔ (self.now ≡ other.now) }
    {
        match (self, other) {
            (Exn::ErrorCall(s), Exn::ErrorCall(t)) => s.same(t),
            (Exn::ThreadKilled, Exn::ThreadKilled) => true,
            (Exn::UserInterrupt, Exn::UserInterrupt) => true,
            (Exn::DivideByZero, Exn::DivideByZero) => true,
            (Exn::Overflow, Exn::Overflow) => true,
            (Exn::Timeout(m), Exn::Timeout(n)) => m == n,
            (Exn::TextLimit, Exn::TextLimit) => true,
            (Exn::BlockedIndefinitely, Exn::BlockedIndefinitely) => true,
            (_, _) => false,
        }
    }

    /// The text that `show` gives.
    pub fn text(&self, alloc: Global) -> Result<Txt, NoMemory>
        ensures { IfOk result (λ t. t ≡ text_of self.now) }
    {
        match self {
            Exn::ErrorCall(text) => text.copy(alloc),
            Exn::ThreadKilled => Txt::of(alloc, "thread killed"),
            Exn::UserInterrupt => Txt::of(alloc, "user interrupt"),
            Exn::DivideByZero => Txt::of(alloc, "divide by zero"),
            Exn::Overflow => Txt::of(alloc, "arithmetic overflow"),
            Exn::Timeout(_) => Txt::of(alloc, "<<timeout>>"),
            Exn::TextLimit => Txt::of(alloc, "text too long"),
            Exn::BlockedIndefinitely => {
                Txt::of(alloc, "thread blocked indefinitely in an MVar operation")
            }
        }
    }
}
