ghost use Rattle.std.specs.Prelude.{◌≡◌, ◌≤◌, []};
ghost use Rattle.run_course.specs.history.Records.{script};
ghost use Rattle.run_course.specs.clocked.Clocks.{TicksKept};

use crate::history::Record;
use hs_io::Clock;
use std::snapshot::Snapshot;

/// A run beside the clock that it goes by.
#[derive(Drop)]
pub struct Clocked<K: Clock> {
    pub record: Record,
    pub clock: K,
    /// The clock as it was lent.
    pub lent: Snapshot<K>,
    pub ghost chosen: { K.choice clock ≡ K.choice lent.value },
    pub ghost time: { «record».world.clock ≤ K.last clock },
    pub ghost later: { K.early_waits lent.value ≤ K.early_waits clock },
    pub ghost ticks: { ∥ TicksKept (script «record») «record».history.list (K.early_waits lent.value) (K.early_waits clock) ∥₁ },
}

impl<K: Clock> Clocked<K> {
    /// A run that hasn't begun beside this clock.
    pub fn begin(run: Record, clock: K) -> Clocked<K>
        requires begun { run.history.list ≡ [] }
        requires start { run.world.clock ≡ 0 }
        ensures record { result.record ≡ run }
        ensures clock { result.clock ≡ clock }
        ensures lent { result.lent.value ≡ clock }
    {
        let lent = Snapshot::of(&clock);
        Clocked {
            record: run,
            clock,
            lent,
        }
    }
}
