//! What is told of an answer.
ghost use Rattle.std.specs.Prelude.{◌≡◌, ◌⊎◌, IsOk, []};
ghost use Rattle.hs_io.specs.Causes.{HasCause};
ghost use Rattle.hs_io.specs.Outside.{Puts};
ghost use Rattle.conc_top.specs.declared.ending.Ending.TheVariants.{Accepted, Memory};
ghost use Rattle.conc_top.specs.Answers.{TellsAnswer, TellsLine};
ghost use Rattle.conc_top.specs.Lines.{accepted_line, HasPlace, line_of, status_of, text_of};

use crate::ending::{ACCEPTED, Done, Ending, Line, OUT_OF_MEMORY};
use hs_io::{Clock, Failed, Sink};
use hs_rules::History;
use std::alloc::Global;

/// Tells the line of an answer, where nothing ran or no history is kept.
pub(crate) fn tell<O: Sink, E: Sink, K: Clock>(
    alloc: Global,
    came: Ending,
    out: O,
    mut err: E,
    clock: K,
) -> Done<O, E, K>
    ensures status { result.status ≡ status_of result.ending }
    ensures tells { TellsAnswer came result.ending (E.told err) (E.told result.err) (E.faults err) (E.faults result.err) }
    ensures history { result.history.list ≡ [] }
    ensures kept { (result.out ≡ out) × (result.clock ≡ clock) }
{
    let (came, line) = with_line(alloc, came);
    let ending = put_line(came, line.as_str().as_bytes(), &mut err);
    Done {
        status: ending.status(),
        ending,
        history: History::new(alloc),
        out,
        err,
        clock,
    }
}

/// Tells a text on the output sink, where nothing ran or no history is kept.
pub(crate) fn tell_text<O: Sink, E: Sink, K: Clock>(
    alloc: Global,
    came: Ending,
    text: &[u8],
    mut out: O,
    err: E,
    clock: K,
) -> Done<O, E, K>
    ensures status { result.status ≡ status_of result.ending }
    ensures tells { TellsLine text.now came result.ending (O.told out) (O.told result.out) (O.faults out) (O.faults result.out) }
    ensures history { result.history.list ≡ [] }
    ensures kept { (result.err ≡ err) × (result.clock ≡ clock) }
{
    let ending = put_line(came, text, &mut out);
    Done {
        status: ending.status(),
        ending,
        history: History::new(alloc),
        out,
        err,
        clock,
    }
}

/// Tells that the script is accepted, on the output sink.
pub(crate) fn tell_accepted<O: Sink, E: Sink, K: Clock>(
    alloc: Global,
    out: O,
    err: E,
    clock: K,
) -> Done<O, E, K>
    ensures status { result.status ≡ status_of result.ending }
    ensures tells { TellsLine accepted_line Accepted result.ending (O.told out) (O.told result.out) (O.faults out) (O.faults result.out) }
    ensures history { result.history.list ≡ [] }
    ensures kept { (result.err ≡ err) × (result.clock ≡ clock) }
{
    tell_text(
        alloc,
        Ending::Accepted,
        ACCEPTED.as_bytes(),
        out,
        err,
        clock,
    )
}

// The answer and its line, or want of memory where there is none for a line with a place in it.
fn with_line(alloc: Global, came: Ending) -> (Ending, Line)
    ensures line { text_of result.1 ≡ line_of result.0 }
    ensures came { (result.0 ≡ came) ⊎ (HasPlace came × (result.0 ≡ Memory)) }
{
    match came.line(alloc) {
        Ok(line) => (came, line),
        Err(_) => (Ending::Memory, Line::Fixed(OUT_OF_MEMORY)),
    }
}

/// Puts the line of an answer; the answer is Write after a failed put.
pub(crate) fn put_line<O: Sink>(came: Ending, line: &[u8], sink: &mut O) -> Ending
    ensures { TellsLine line.now came result (O.told sink.old) (O.told sink.new) (O.faults sink.old) (O.faults sink.new) }
{
    match put_piece(sink, line) {
        Ok(()) => came,
        Err(Failed) => Ending::Write,
    }
}

pub(crate) fn put_piece<O: Sink>(sink: &mut O, piece: &[u8]) -> Result<(), Failed>
    ensures told { Puts (O.told sink.old) (O.told sink.new) result piece.now }
    ensures cause { HasCause (O.faults sink.old) (O.faults sink.new) result }
    ensures silent { piece.now ≡ [] → (sink.new ≡ sink.old) × IsOk result }
{
    if piece.is_empty() {
        return Ok(());
    }
    sink.put(piece)
}
