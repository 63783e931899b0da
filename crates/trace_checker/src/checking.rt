ghost use Rattle.rules_code.specs.Codes.{body_of};
ghost use Rattle.rules_expansion.specs.trees.Programs.{script_of};
ghost use Rattle.trace_checker.specs.Checking.{Judges};

use crate::verdict::{RunFault, Verified};
use crate::walk::Walk;
use hs_rules::Code;
use std::alloc::Global;

/// Goes along the lines of the text, entry by entry.
pub fn check_run(alloc: Global, code: &Code, text: &[u8]) -> Result<Verified, RunFault>
    ensures { Judges (script_of (body_of code.now).of.value) text.now result }
{
    let mut walk = Walk::begin(alloc, code, text)?;
    while let Some(entry) = walk.next()? {
        walk.play(code, entry)?;
    }
    Ok(walk.verdict())
}
