//! What is shown without a run: a text on the output sink, or on the error sink why there is none.
ghost use Rattle.std.specs.Prelude.{◌≡◌, ◌≤◌, MatchResult, []};
ghost use Rattle.conc_task.specs.Tasks.{NumbersOutcome};
ghost use Rattle.conc_top.specs.Answers.{IsShortIn, IsShownOf, IsUnshown, TellsAsked};
ghost use Rattle.conc_top.specs.Lines.{status_of};

use crate::asking::answer;
use crate::ending::{Done, Ending};
use crate::judging::judged;
use crate::listing::listed;
use crate::telling::{tell, tell_text};
use conc_task::Asked;
use haskell_module::write_module;
use hs_base::Txt;
use hs_io::{Clock, Sink};
use std::alloc::Global;

/// Puts what is asked on the output sink as one piece, or says on the error sink why there is none.
pub(crate) fn show<O: Sink, E: Sink, K: Clock>(
    alloc: Global,
    asked: &Asked,
    out: O,
    err: E,
    clock: K,
) -> Done<O, E, K>
    requires number { NumbersOutcome asked.now }
    requires short { IsShortIn asked.now }
    ensures status { result.status ≡ status_of result.ending }
    ensures tells { TellsAsked asked.now result.ending
        (O.told out) (O.told result.out) (O.faults out) (O.faults result.out) (E.told err) (E.told result.err) (E.faults err) (E.faults result.err) }
    ensures history { result.history.list ≡ [] }
    ensures clock { result.clock ≡ clock }
    ensures counts { (O.faults out ≤ O.faults result.out) × (E.faults err ≤ E.faults result.err) }
    ensures calm { (result.status ≡ 8 → ⊥) → (O.faults result.out ≡ O.faults out) × (E.faults result.err ≡ E.faults err) }
{
    match shown(alloc, asked) {
        Ok((came, text)) => tell_text(alloc, came, text.as_str().as_bytes(), out, err, clock),
        Err(came) => tell(alloc, came, out, err, clock),
    }
}

// The answer and its text, or the answer where there is none.
fn shown(alloc: Global, asked: &Asked) -> Result<(Ending, Txt), Ending>
    requires number { NumbersOutcome asked.now }
    requires short { IsShortIn asked.now }
    ensures { MatchResult result (λ found. IsShownOf asked.now found.0 found.1) (IsUnshown asked.now) }
{
    match asked {
        Asked::Outcomes(sought, witness) => {
            let (extent, text) = listed(alloc, sought, *witness)?;
            Ok((Ending::Outcomes(extent), text))
        }
        Asked::Claims(sought) => {
            let (judged, text) = judged(alloc, sought)?;
            Ok((Ending::Claims(judged), text))
        }
        Asked::Module(script) => {
            let text = write_module(alloc, script)?;
            Ok((Ending::Printed, text))
        }
        Asked::Document(question, replay) => answer(alloc, *question, replay),
    }
}
