//! Jobs and slices of the tests.
ghost use Rattle.std.specs.Prelude.{◌≡◌};
ghost use Rattle.rules_code.specs.Codes.{body_of};

use hs_base::NoMemory;
use hs_compile::compile;
use hs_rules::Ticketed;
use rules_code::{Code, CodeBody};
use std::alloc::Global;
use std::snapshot::Snapshot;
use std::sync::Arc;

/// A ticket of a code.
#[derive(Drop)]
pub struct Item {
    pub number: u64,
    pub of: Snapshot<CodeBody>,
}

impl Ticketed for Item {
    ghost number = { λ x. x.number };

    ghost belongs = { λ x. x.of.value };

    fn ticket(&self) -> u64 {
        self.number
    }
}

/// An item of this code.
pub fn ticket_of(code: &Code, number: u64) -> Item
    ensures { (result.number ≡ number) × (result.of.value ≡ body_of code.now) }
{
    let body: &CodeBody = &code.body;
    Item {
        number,
        of: Snapshot::of(body),
    }
}

/// Some code: that of the smallest script.
pub fn a_code(alloc: Global) -> Result<Code, NoMemory> {
    match compile(alloc, b"main :: IO () = { return () };") {
        Ok(code) => Ok(code),
        Err(_) => Err(NoMemory),
    }
}

/// What that code is.
pub fn a_body(alloc: Global) -> Result<CodeBody, NoMemory> {
    let body = {
        let code = a_code(alloc)?;
        Arc::try_clone(&code.body)?
    };
    match Arc::into_inner(body) {
        Some(body) => Ok(body),
        None => Err(NoMemory),
    }
}
