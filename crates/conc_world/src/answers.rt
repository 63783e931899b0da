ghost use Rattle.conc_world.specs.Runs.{Shown};

use hs_io::{Clock, Sink};
use hs_rules::History;
use run_course::RunEnd;

/// Why a slice is stale.
#[derive(Clone, Copy, Debug, PartialEq, Eq)]
pub enum Why {
    /// The thread isn't where the slice starts.
    Differs,
    /// The thread is blocked.
    Blocked,
    /// There is no such thread that hasn't finished.
    Finished,
}

/// What became of a slice.
#[derive(Clone, Copy, Debug, PartialEq, Eq)]
pub enum Committed {
    /// Its steps are in the history, or would exceed the limit of frames, which is the ending then.
    Taken,
    Stale(Why),
    /// Its steps exceed the fuel that is left.
    Short(u64),
    /// There is an ending.
    Ended,
    NoMemory,
}

/// Which slice was judged, where one came back.
#[derive(Clone, Copy, Debug, PartialEq, Eq)]
pub enum Made {
    /// The one that came back.
    Before,
    /// One of the same job, made where its thread stands.
    Anew,
}

/// What is lent to a run.
#[derive(Drop)]
pub struct Parts<O, E, K> {
    pub out: O,
    pub err: E,
    pub clock: K,
}

/// Sinks and a clock, by what they show: the bytes that they were told, their faults, and the clock's readings.
pub trait Shows {
    ghost shown: { Self → Shown };
}

impl<O: Sink, E: Sink, K: Clock> Shows for Parts<O, E, K> {
    ghost shown = { λ p. record {
      output = O.told p.out;
      errors = E.told p.err;
      out_faults = O.faults p.out;
      err_faults = E.faults p.err;
      last = K.last p.clock;
      early = K.early_waits p.clock;
    } };
}

/// What a run leaves.
#[derive(Drop)]
pub struct Closed<O, E, K> {
    pub end: Option<RunEnd>,
    pub history: History,
    pub parts: Parts<O, E, K>,
}
