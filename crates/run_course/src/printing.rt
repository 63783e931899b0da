//! Entries that print.
ghost use Rattle.std.specs.Prelude.{◌≡◌, ◌≢◌, ◌<◌, ◌+◌, ◌⊎◌, [], ℕ, List, None, OnOk, OnErr, length};
ghost use Rattle.hs_io.specs.Causes.{HasCause, Rose};
ghost use Rattle.hs_io.specs.Outside.{Puts};
ghost use Rattle.hs_rules.specs.Histories.{steps_of};
ghost use Rattle.run_course.specs.declared.history.acts.Next.TheVariants as next;
ghost use Rattle.run_course.specs.history.Acts.{entry_of};
ghost use Rattle.run_course.specs.history.Pieces.{IsPiece};
ghost use Rattle.run_course.specs.history.Records.{IsNext, Same};
ghost use Rattle.run_course.specs.Told.{Both, OneFailed, Counted};
ghost use Rattle.run_course.specs.Settled.{Acted};

use crate::course::Course;
use crate::ends::RunEnd;
use crate::history::{NextEntry, PrintedPiece, Stream};
use hs_base::NoMemory;
use hs_io::{Clock, Failed, Sink};

/// Puts a piece that isn't empty.
fn put<S: Sink>(sink: &mut S, bytes: &[u8]) -> Result<(), Failed>
    ensures told { Puts (S.told sink.old) (S.told sink.new) result bytes.now }
    ensures cause { HasCause (S.faults sink.old) (S.faults sink.new) result }
    ensures some { OnErr result (bytes.now ≢ []) }
{
    if bytes.is_empty() {
        return Ok(());
    }
    sink.put(bytes)
}

/// Puts what there is to its stream.
fn put_piece<O: Sink, E: Sink>(
    piece: &Option<PrintedPiece>,
    out: &mut O,
    err: &mut E,
) -> Result<(), Failed>
    ensures ok { OnOk result ((output errors : List ℕ) → IsPiece piece.now output errors → Both (O.told out.old) (O.told out.new) (E.told err.old) (E.told err.new) output errors) }
    ensures failed { OnErr result ((output errors : List ℕ) → IsPiece piece.now output errors → OneFailed (O.told out.old) (O.told out.new) (E.told err.old) (E.told err.new) output errors) }
    ensures rose { OnErr result (Rose (O.faults out.old) (O.faults out.new) ⊎ Rose (E.faults err.old) (E.faults err.new)) }
    ensures calm { OnOk result ((O.faults out.new ≡ O.faults out.old) × (E.faults err.new ≡ E.faults err.old)) }
    ensures counted { Counted (O.faults out.old) (O.faults out.new) (E.faults err.old) (E.faults err.new) }
{
    match piece {
        None => Ok(()),
        Some(piece) => match piece.stream {
            Stream::Output => put(out, &piece.bytes),
            Stream::Errors => put(err, &piece.bytes),
        },
    }
}

/// How many bytes a piece has.
fn length_of(piece: &Option<PrintedPiece>) -> usize
    ensures { (output errors : List ℕ) → IsPiece piece.now output errors → result ≡ length output + length errors }
{
    match piece {
        None => 0,
        Some(piece) => piece.bytes.len(),
    }
}

impl<O: Sink, E: Sink, K: Clock> Course<O, E, K> {
    /// Appends the entry of an act and puts what it prints, or sets the ending where it would exceed a limit or a put fails.
    pub fn act(&mut self, act: NextEntry) -> Result<(), NoMemory>
        requires none { self.old.end ≡ None }
        requires next { IsNext (next.Act act) self.old.clocked.record }
        requires fuel { steps_of self.old.clocked.record.history.list < self.old.clocked.record.fuel }
        ensures ok { OnOk result (Acted (entry_of act) self.new.end self.old.clocked.record self.new.clocked.record) }
        ensures err { OnErr result (Same self.old.clocked.record self.new.clocked.record × (self.new.end ≡ None)) }
        ensures still { self.new.clocked.record.history.list ≡ self.old.clocked.record.history.list → (self.new.out ≡ self.old.out) × (self.new.err ≡ self.old.err) }
        ensures clock { (self.new.clocked.clock ≡ self.old.clocked.clock) × (self.new.clocked.lent ≡ self.old.clocked.lent) }
        ensures lent { (self.new.out_lent ≡ self.old.out_lent) × (self.new.err_lent ≡ self.old.err_lent) }
    {
        let piece = self.clocked.record.piece(act)?;
        let bytes = length_of(&piece);
        if let Some(kind) = self.clocked.act(act, bytes)? {
            self.end = Some(RunEnd::Limit(kind, act.entry()));
            return Ok(());
        }
        if put_piece(&piece, &mut self.out, &mut self.err).is_err() {
            self.end = Some(RunEnd::Write);
        }
        Ok(())
    }
}
