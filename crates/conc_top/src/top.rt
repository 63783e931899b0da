ghost use Rattle.std.specs.Prelude.{◌≡◌, ◌<◌, ◌≤◌, ◌⊎◌, ℕ, List, Some, IfSome, IsSome};
ghost use Rattle.hs_io.specs.Causes.{Rose};
ghost use Rattle.rules_code.specs.Codes.{body_of};
ghost use Rattle.hs_compile.specs.Verdicts.{IsAccepted};
ghost use Rattle.conc_task.specs.words.Commands.{command_by};
ghost use Rattle.conc_task.specs.Commands.{IsChosen, ReadsSource, Runs, Traces};
ghost use Rattle.trace_text.specs.spelling.Traces.{document_of};
ghost use Rattle.conc_top.specs.declared.ending.Ending.TheVariants.{Ran};
ghost use Rattle.conc_top.specs.Answers.{AnswersQuestions, AnswersRefused, AnswersScripts, HasCause, IsCall, IsPlayed, IsWritten, Plays, TellsLine, TellsShown, Unfailing, WasToldNothing};
ghost use Rattle.conc_top.specs.Causes.{ending_of, IsFault, IsUnrun};
ghost use Rattle.conc_top.specs.Lines.{line_of, status_of};

use crate::ending::{Done, Ending, NotRun, run_line};
use crate::running::run_program;
use crate::showing::show;
use crate::telling::{put_line, tell, tell_accepted};
use crate::tracing::trace;
use conc_caps::{Closed, Parts, Shows};
use conc_task::{Program, Stop, Task, task_of};
use hs_io::{Clock, Gate, Sink, Source};
use std::alloc::Global;
use std::sync::Wait;
use std::thread::Threads;

/// Does all that the program does: reads the words, reads the script from the source, checks it, runs it, and tells what it
/// printed and how it ended.
///
/// `words` are the words after the program's name (`conc_task::words`). What a run prints goes to `out` and to `err` while it runs,
/// each entry's as one piece, and then the line of the ending to `err` as one piece; `check` puts `accepted` on `out`. `trace` prints
/// nothing of that: once the run is over it puts its document on `out` as one piece. `verify` puts what it found on `out`,
/// and `report` its lines and `picture` its document as one piece, where the document is a run. `outcomes` runs nothing: it puts
/// the list of all outcomes, or the document of a run that comes to one of them, on `out` as one piece; `claims` so a line for each
/// claim, and `haskell` a module. An empty piece is not put, and nothing is put after a failed put. The clock is told its choice before a run begins. Want of memory is
/// free.
///
/// A run on one capability needs no other thread and calls no gate. One on more starts threads by `rt`, waits for all of them
/// before it returns, and calls the gate from any of them (`hs_io::Gate`).
pub fn run<
    S: Source,
    O: Sink + Send,
    E: Sink + Send,
    K: Clock + Send,
    G: Gate + Sync,
    R: Threads + Wait + Sync,
>(
    alloc: Global,
    rt: &R,
    words: &[String],
    source: &mut S,
    out: O,
    err: E,
    clock: K,
    gate: &G,
) -> Done<O, E, K>
    requires out { WasToldNothing (O.told out) }
    requires err { WasToldNothing (E.told err) }
    ensures status { result.status ≡ status_of result.ending }

    // The table of answers and their causes. Want of memory alone is free.
    ensures cause { HasCause (command_by words.now) (S.left source.old)
        (Rose (S.faults source.old) (S.faults source.new))
        (Rose (O.faults out) (O.faults result.out) ⊎ Rose (E.faults err) (E.faults result.err)) result.ending }

    // Where nothing fails and the input is an accepted script, the answer is the run's ending, or `accepted`, or what is asked for
    // without a run comes to, or want of memory.
    ensures complete { AnswersScripts (command_by words.now) (S.left source.old)
        (Unfailing (S.faults source.old) (S.faults source.new) (O.faults out) (O.faults result.out) (E.faults err) (E.faults result.err)) result.ending }

    // Where nothing fails and the input is refused, the answer is a refusal of it, or want of memory.
    ensures refusal { AnswersRefused (command_by words.now) (S.left source.old)
        (Unfailing (S.faults source.old) (S.faults source.new) (O.faults out) (O.faults result.out) (E.faults err) (E.faults result.err)) result.ending }

    // Where nothing fails, what is asked of a document is answered by what it comes to, or there is want of memory.
    ensures verdict { AnswersQuestions (command_by words.now) (S.left source.old)
        (Unfailing (S.faults source.old) (S.faults source.new) (O.faults out) (O.faults result.out) (E.faults err) (E.faults result.err)) result.ending }

    // What `trace` writes: the document of the history and of the bytes that the source had.
    ensures written { (bytes : List ℕ) → Traces (command_by words.now) → S.left source.old ≡ Some bytes
        → IsWritten (document_of result.history.list bytes) result.ending (O.told out) (O.told result.out) }

    // What `outcomes`, `claims` and `haskell` tell where they have an answer: exactly the list of the outcomes of the bytes that the
    // source had, or the document of a run that comes to the one that is asked for; exactly a line for each claim; exactly the module.
    ensures shown { (bytes : List ℕ) → S.left source.old ≡ Some bytes
        → TellsShown (command_by words.now) bytes result.ending (O.told out) (O.told result.out) (E.told err) (E.told result.err) }

    // The answer that the call came to, the run that it kept, and what it told.
    ensures call { IsCall (command_by words.now) (S.faults source.old) (S.faults source.new)
        (S.left source.old) (S.left source.new) (K.choice result.clock) result.ending result.history.list
        (⟦<Parts<O, E, K> as Shows>⟧.shown (record { out = out; err = err; clock = clock }))
        (⟦<Done<O, E, K> as Shows>⟧.shown result) }

    // A failed read is told, unless the put of its line fails too, and nothing else raises the source's count of faults.
    ensures rose { S.faults source.old < S.faults source.new → IsFault result.ending }
    ensures steady { ¬ IsFault result.ending → S.faults source.new ≡ S.faults source.old }

    // The source is not read where the words are no command that reads it.
    ensures unread { ¬ ReadsSource (command_by words.now) → source.new ≡ source.old }

    // The clock is not looked at where the command runs nothing, and under an answer that comes without a run.
    ensures unclocked { ¬ Runs (command_by words.now) → result.clock ≡ clock }
    ensures unrun { IsUnrun result.ending → result.clock ≡ clock }

    // No sink's count of faults falls, nor that of early waits, and the clock keeps its choice or has that of the command.
    ensures counts { (O.faults out ≤ O.faults result.out) × (E.faults err ≤ E.faults result.err) × (K.early_waits clock ≤ K.early_waits result.clock) }
    ensures calm { (result.status ≡ 8 → ⊥) → (O.faults result.out ≡ O.faults out) × (E.faults result.err ≡ E.faults err) }
    ensures choice { IsChosen (command_by words.now) (K.choice clock) (K.choice result.clock) }
{
    match task_of(alloc, words, source) {
        Ok(Task::Run(program)) => play(alloc, rt, program, gate, Parts { out, err, clock }),
        Ok(Task::Accept) => tell_accepted(alloc, out, err, clock),
        Ok(Task::Trace(program, bytes)) => {
            let parts = Parts { out, err, clock };
            trace(alloc, rt, program, &bytes, gate, parts)
        }
        Ok(Task::Show(asked)) => show(alloc, &asked, out, err, clock),
        Err(stop) => tell(alloc, ending_of(stop), out, err, clock),
    }
}

// Runs the program by the clock that it chooses, and tells how it ended.
fn play<O: Sink + Send, E: Sink + Send, K: Clock + Send, G: Gate + Sync, R: Threads + Wait + Sync>(
    alloc: Global,
    rt: &R,
    program: Program,
    gate: &G,
    parts: Parts<O, E, K>,
) -> Done<O, E, K>
    requires fuel { 1 ≤ program.fuel }
    requires capabilities { (1 ≤ program.capabilities) × (program.capabilities ≤ 16) }
    ensures status { result.status ≡ status_of result.ending }
    ensures cause { IsPlayed (Rose (O.faults parts.out) (O.faults result.out) ⊎ Rose (E.faults parts.err) (E.faults result.err)) result.ending }
    ensures plays { (bytes : List ℕ) → IsAccepted bytes (body_of program.code).of.value → ∥ Plays program.fuel bytes result.ending result.history.list
        (⟦<Parts<O, E, K> as Shows>⟧.shown parts)
        (⟦<Done<O, E, K> as Shows>⟧.shown result) ∥₁ }
    ensures counts { (O.faults parts.out ≤ O.faults result.out) × (E.faults parts.err ≤ E.faults result.err) × (K.early_waits parts.clock ≤ K.early_waits result.clock) }
    ensures calm { (result.status ≡ 8 → ⊥) → (O.faults result.out ≡ O.faults parts.out) × (E.faults result.err ≡ E.faults parts.err) }
    ensures choice { K.choice result.clock ≡ Some program.clock }
{
    match run_program(alloc, rt, program, gate, parts) {
        Ok(closed) => end(closed),
        Err(Parts { out, err, clock }) => tell(alloc, Ending::Memory, out, err, clock),
    }
}

// Tells the line of a run's ending.
fn end<O: Sink, E: Sink, K: Clock>(closed: Closed<O, E, K>) -> Done<O, E, K>
    requires ended { IsSome closed.end }
    ensures status { result.status ≡ status_of result.ending }
    ensures tells { IfSome closed.end (λ end. TellsLine (line_of (Ran end)) (Ran end) result.ending (E.told closed.parts.err) (E.told result.err) (E.faults closed.parts.err) (E.faults result.err)) }
    ensures history { result.history ≡ closed.history }
    ensures kept { (result.out ≡ closed.parts.out) × (result.clock ≡ closed.parts.clock) }
{
    let Closed {
        end,
        history,
        parts: Parts {
            out,
            mut err,
            clock,
        },
    } = closed;
    let end = end.unwrap();
    let ending = put_line(Ending::Ran(end), run_line(&end).as_bytes(), &mut err);
    Done {
        status: ending.status(),
        ending,
        history,
        out,
        err,
        clock,
    }
}

// The answer where there is nothing to run and nothing is accepted.
fn ending_of(stop: Stop) -> Ending
    ensures { result ≡ ending_of stop }
{
    match stop {
        Stop::Words => Ending::Words,
        Stop::Refused(refusal) => Ending::Refused(refusal),
        Stop::Read => Ending::Read,
        Stop::NoScript => Ending::NotRun(NotRun::NoScript),
        Stop::Memory => Ending::Memory,
    }
}
