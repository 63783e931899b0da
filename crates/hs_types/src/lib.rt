//! The checker of types: which scripts the typing rules accept, and the first rule that another breaks.
//!
//! To a contract a fault is the broken rule of `rules_typing` that it names (`specs/Faults`). The one promise: `check` answers
//! the script exactly where the typing rules accept it, and else the broken rule that comes before all others, or
//! `NoMain` where nothing is broken.
#![tactic(auto)]

mod answer;
mod definition;
mod progress;

ghost use Rattle.std.specs.Prelude.{◌≡◌, MatchResult};
ghost use Rattle.hs_types.specs.Faults.{Refused};

use crate::answer::{Answer, judge_script};
use hs_base::tree::Script;
use rules_typing::Checked;
use std::alloc::Global;
pub use typing_parts::{Form, TypeFault, Want};

/// Accepts a script, or says which broken rule comes first.
pub fn check(alloc: Global, script: Script) -> Result<Checked, TypeFault>
    ensures { MatchResult result (λ checked. checked.script ≡ script) (λ fault. Refused fault script) }
{
    match judge_script(alloc, &script) {
        Err(_) => Err(TypeFault::NoMemory),
        Ok(Answer::Broken(f)) => Err(f),
        Ok(Answer::NoMain) => Err(TypeFault::NoMain),
        Ok(Answer::Sound) => Ok(Checked { script }),
    }
}
