//! `trace`: a script runs, and its history is written in place of what it prints.
ghost use Rattle.std.specs.Prelude.{◌≡◌, ◌≤◌, ◌⊎◌, IsSome, Some};
ghost use Rattle.hs_io.specs.Causes.{Rose};
ghost use Rattle.rules_code.specs.Codes.{body_of};
ghost use Rattle.trace_text.specs.spelling.Traces.{document_of};
ghost use Rattle.hs_compile.specs.Verdicts.{IsAccepted};
ghost use Rattle.conc_top.specs.Answers.{IsPlayed, IsWritten, PutsDocument, Writes, WritesEnded};
ghost use Rattle.conc_top.specs.Lines.{status_of};

use crate::ending::{Done, Ending, run_line};
use crate::running::run_program;
use crate::telling::{put_line, put_piece, tell};
use conc_caps::{Closed, Parts, RunEnd, Shows};
use conc_task::Program;
use hs_base::NoMemory;
use hs_io::{Clock, Failed, Gate, NullSink, Sink};
use hs_rules::History;
use std::alloc::Global;
use std::sync::Wait;
use std::thread::Threads;
use trace_text::write_document;

/// Runs the program by the clock that it chooses, and puts the document of its history and of the bytes that it was read from.
pub(crate) fn trace<
    O: Sink + Send,
    E: Sink + Send,
    K: Clock + Send,
    G: Gate + Sync,
    R: Threads + Wait + Sync,
>(
    alloc: Global,
    rt: &R,
    program: Program,
    bytes: &[u8],
    gate: &G,
    parts: Parts<O, E, K>,
) -> Done<O, E, K>
    requires fuel { 1 ≤ program.fuel }
    requires capabilities { (1 ≤ program.capabilities) × (program.capabilities ≤ 16) }
    ensures status { result.status ≡ status_of result.ending }
    ensures cause { IsPlayed (Rose (O.faults parts.out) (O.faults result.out) ⊎ Rose (E.faults parts.err) (E.faults result.err)) result.ending }
    ensures writes { IsAccepted bytes.now (body_of program.code).of.value → ∥ Writes program.fuel bytes.now result.ending result.history.list
        (⟦<Parts<O, E, K> as Shows>⟧.shown parts)
        (⟦<Done<O, E, K> as Shows>⟧.shown result) ∥₁ }
    ensures written { IsWritten (document_of result.history.list bytes.now) result.ending (O.told parts.out) (O.told result.out) }
    ensures counts { (O.faults parts.out ≤ O.faults result.out) × (E.faults parts.err ≤ E.faults result.err) × (K.early_waits parts.clock ≤ K.early_waits result.clock) }
    ensures calm { (result.status ≡ 8 → ⊥) → (O.faults result.out ≡ O.faults parts.out) × (E.faults result.err ≡ E.faults parts.err) }
    ensures choice { K.choice result.clock ≡ Some program.clock }
{
    let Parts { out, err, clock } = parts;
    let silent = Parts {
        out: NullSink,
        err: NullSink,
        clock,
    };
    match run_program(alloc, rt, program, gate, silent) {
        Ok(closed) => write_closed(alloc, closed, bytes, out, err),
        Err(Parts { clock, .. }) => tell(alloc, Ending::Memory, out, err, clock),
    }
}

// Puts the document of what was run, and then the line of its ending.
fn write_closed<O: Sink, E: Sink, K: Clock>(
    alloc: Global,
    closed: Closed<NullSink, NullSink, K>,
    bytes: &[u8],
    mut out: O,
    mut err: E,
) -> Done<O, E, K>
    requires ended { IsSome closed.end }
    ensures status { result.status ≡ status_of result.ending }
    ensures writes { WritesEnded bytes.now closed.end result.ending closed.history.list result.history.list
        (O.told out) (O.told result.out) (O.faults out) (O.faults result.out) (E.told err) (E.told result.err) (E.faults err) (E.faults result.err) }
    ensures clock { result.clock ≡ closed.parts.clock }
{
    let Closed {
        end,
        history,
        parts: Parts { clock, .. },
    } = closed;
    let end = end.unwrap();
    match write_document(alloc, &history, bytes) {
        Ok(document) => {
            let ending = put_document(end, &document, &mut out, &mut err);
            Done {
                status: ending.status(),
                ending,
                history,
                out,
                err,
                clock,
            }
        }
        Err(_) => tell(alloc, Ending::Memory, out, err, clock),
    }
}

// Puts the document, and then the line of the ending; the answer is Write after a failed put.
fn put_document<O: Sink, E: Sink>(end: RunEnd, document: &[u8], out: &mut O, err: &mut E) -> Ending
    ensures { PutsDocument document.now end result
        (O.told out.old) (O.told out.new) (O.faults out.old) (O.faults out.new) (E.told err.old) (E.told err.new) (E.faults err.old) (E.faults err.new) }
{
    match put_piece(out, document) {
        Ok(()) => put_line(Ending::Ran(end), run_line(&end).as_bytes(), err),
        Err(Failed) => Ending::Write,
    }
}
