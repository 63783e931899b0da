ghost use Rattle.std.specs.Prelude.{◌≡◌, ◌≤◌, [], None, Some, IsSome, false};
ghost use Rattle.run_course.specs.history.Records.{script};
ghost use Rattle.run_course.specs.declared.ends.RunEnd.TheVariants as end;
ghost use Rattle.run_course.specs.Told.{is_write, ToldOf};
ghost use Rattle.run_course.specs.Endings.{EndedBy};

use crate::clocked::Clocked;
use crate::ends::RunEnd;
use hs_io::{Clock, Sink};
use std::snapshot::Snapshot;

/// A run that goes on.
#[derive(Drop)]
pub struct Course<O: Sink, E: Sink, K: Clock> {
    pub clocked: Clocked<K>,
    pub end: Option<RunEnd>,
    pub out: O,
    pub err: E,
    /// The sinks as they were lent.
    pub out_lent: Snapshot<O>,
    pub err_lent: Snapshot<E>,
    pub ghost told: { ∥ ToldOf end (script clocked.record) clocked.record.history.list (O.told out_lent.value) (O.told out) (E.told err_lent.value) (E.told err) ∥₁ },
    pub ghost out_faults: { O.faults out_lent.value ≤ O.faults out },
    pub ghost err_faults: { E.faults err_lent.value ≤ E.faults err },
    // No put failed, but where that is the ending.
    pub ghost calm: { ∥ (is_write end ≡ false → (O.faults out ≡ O.faults out_lent.value) × (E.faults err ≡ E.faults err_lent.value)) ∥₁ },
    pub ghost ended: { ∥ EndedBy end (script clocked.record) clocked.record.history.list clocked.record.fuel clocked.record.limits (O.faults out_lent.value) (E.faults err_lent.value) (O.faults out) (E.faults err) ∥₁ },
}

impl<O: Sink, E: Sink, K: Clock> Course<O, E, K> {
    /// A run that hasn't begun, and the sinks that it prints to.
    pub fn begin(clocked: Clocked<K>, out: O, err: E) -> Course<O, E, K>
        requires begun { clocked.record.history.list ≡ [] }
        ensures clocked { result.clocked ≡ clocked }
        ensures end { result.end ≡ None }
        ensures sinks { (result.out ≡ out) × (result.err ≡ err) }
        ensures lent { (result.out_lent.value ≡ out) × (result.err_lent.value ≡ err) }
    {
        let out_lent = Snapshot::of(&out);
        let err_lent = Snapshot::of(&err);
        Course {
            clocked,
            end: None,
            out,
            err,
            out_lent,
            err_lent,
        }
    }

    /// Sets the ending Memory where there is none.
    pub fn give_up(&mut self)
        ensures none { self.old.end ≡ None → self.new.end ≡ Some end.Memory }
        ensures some { IsSome self.old.end → self.new.end ≡ self.old.end }
        ensures clocked { self.new.clocked ≡ self.old.clocked }
        ensures lent { (self.new.out_lent ≡ self.old.out_lent) × (self.new.err_lent ≡ self.old.err_lent) }
        ensures kept { (self.new.out ≡ self.old.out) × (self.new.err ≡ self.old.err) }
    {
        if self.end.is_none() {
            self.end = Some(RunEnd::Memory);
        }
    }
}
