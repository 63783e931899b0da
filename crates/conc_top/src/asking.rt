//! What is asked of a document: whether it is a run of the script beside its trace, what that run did, and its picture.
ghost use Rattle.std.specs.Prelude.{◌≡◌, MatchResult};
ghost use Rattle.conc_top.specs.Answers.{IsFound, IsUnfound, LacksFor, replayed_script};
ghost use Rattle.conc_top.specs.Causes.{unfound, unverified};

use crate::ending::{Ending, NotRun, verified_line};
use conc_task::Replay;
use conc_task::words::Question;
use hs_base::Txt;
use std::alloc::Global;
use trace_picture::{PictureFault, picture};
use trace_report::{RunFault, check_run, report};

/// The answer to the question about the trace of the replay and its text, or the answer where there is none.
pub(crate) fn answer(
    alloc: Global,
    question: Question,
    replay: &Replay,
) -> Result<(Ending, Txt), Ending>
    ensures { MatchResult result
        (λ found. IsFound question (replayed_script replay.now) replay.now.trace.items found.0 found.1)
        (LacksFor question (replayed_script replay.now) replay.now.trace.items) }
{
    match found(alloc, question, replay) {
        Ok(found) => Ok(found),
        Err(fault) => Err(unfound(fault)),
    }
}

// The answer and its text, or why there is none.
fn found(alloc: Global, question: Question, replay: &Replay) -> Result<(Ending, Txt), PictureFault>
    ensures { MatchResult result
        (λ found. IsFound question (replayed_script replay.now) replay.now.trace.items found.0 found.1)
        (IsUnfound question (replayed_script replay.now) replay.now.trace.items) }
{
    match question {
        Question::Verify => {
            let verified = check_run(alloc, &replay.code, &replay.trace)?;
            let line = verified_line(alloc, &verified)?;
            Ok((Ending::Verified(verified), Txt::from_string(line)?))
        }
        Question::Report => {
            let text = report(alloc, &replay.code, &replay.trace)?;
            Ok((Ending::Reported, text))
        }
        Question::Picture => {
            let text = picture(alloc, &replay.code, &replay.trace)?;
            Ok((Ending::Pictured, text))
        }
    }
}

// The answer where there is nothing to tell of a trace.
fn unfound(fault: PictureFault) -> Ending
    ensures { result ≡ unfound fault }
{
    match fault {
        PictureFault::Run(fault) => unverified(fault),
        PictureFault::Large(entries) => Ending::NotDrawn(entries),
    }
}

// The answer where a trace is no run.
fn unverified(fault: RunFault) -> Ending
    ensures { result ≡ unverified fault }
{
    match fault {
        RunFault::Spelling(number) => Ending::NotRun(NotRun::Spelling(number)),
        RunFault::Long(number) => Ending::NotRun(NotRun::Long(number)),
        RunFault::Illegal(number) => Ending::NotRun(NotRun::Illegal(number)),
        RunFault::NoMemory => Ending::Memory,
    }
}
