ghost use Rattle.std.specs.Prelude.{◌≡◌, ◌++◌, ◌∷◌, [], IfOk, OnOk};
ghost use Rattle.number_states.specs.Keys as keys;
ghost use Rattle.number_states.specs.Keys.{threads_key, counts_key};
ghost use Rattle.number_states.specs.States.{contents};

use crate::waits::{
    Asleep, NumberCell, Thrown, copy_cells, copy_flight, copy_sleepers, put_cells, put_flight,
    put_sleepers,
};
use hs_base::NoMemory;
use number_tables::Keyed;
use number_tables::value_keys::{put, put_wide};
use std::alloc::Global;

/// A thread in numbers.
#[derive(Clone, Copy, Debug)]
pub struct NumberThread {
    /// The number of its term.
    pub term: u32,
    pub blocked: bool,
    pub finished: bool,
}

/// The number of where a thread stands: whether it is blocked, and whether it has finished.
fn standing_number(blocked: bool, finished: bool) -> u32
    ensures { result ≡ keys.standing_number blocked finished }
{
    match (blocked, finished) {
        (false, false) => 1,
        (true, false) => 2,
        (false, true) => 3,
        (true, true) => 4,
    }
}

/// Puts the key of threads at the end of a list.
fn put_threads(threads: &[NumberThread], out: &mut Vec<u32>) -> Result<(), NoMemory>
    ensures { OnOk result (out.new.items ≡ out.old.items ++ threads_key threads.now) }
{
    for thread in threads {
        put(out, standing_number(thread.blocked, thread.finished))?;
        put(out, thread.term)?;
    }
    put(out, 0)
}

/// Puts the key of the numbers that stand alone at the end of a list.
fn put_counts(state: &NumberState, out: &mut Vec<u32>) -> Result<(), NoMemory>
    ensures { OnOk result (out.new.items ≡ out.old.items ++ counts_key (contents state.now)) }
{
    put_wide(out, state.clock)?;
    put(out, state.instances)?;
    put(out, state.timeouts)?;
    put_wide(out, state.printed)?;
    put(out, state.output)?;
    put(out, state.errors)
}

/// A state in numbers.
#[derive(Drop)]
pub struct NumberState {
    /// By number.
    pub threads: Vec<NumberThread>,
    /// By number. Their values are numbers.
    pub cells: Vec<NumberCell>,
    /// In order of throwing. The exceptions are numbers.
    pub flight: Vec<Thrown>,
    /// By due, and of one due by thread.
    pub sleepers: Vec<Asleep>,
    /// In microseconds.
    pub clock: u64,
    /// The number that the next use of `bracket` gets.
    pub instances: u32,
    /// The number that the next timeout gets.
    pub timeouts: u32,
    /// The bytes of standard output and of standard error together.
    pub printed: u64,
    /// The number of the text that standard output has.
    pub output: u32,
    /// The number of the text that standard error has.
    pub errors: u32,
}

impl NumberState {
    /// A state that holds the same.
    pub fn copy(&self, alloc: Global) -> Result<NumberState, NoMemory>
        ensures { IfOk result (λ x. contents x ≡ contents self.now) }
    {
        let threads = Vec::from_slice(alloc, self.threads.as_slice())?;
        let cells = copy_cells(alloc, self.cells.as_slice())?;
        let flight = copy_flight(alloc, self.flight.as_slice())?;
        let sleepers = copy_sleepers(alloc, self.sleepers.as_slice())?;
        Ok(NumberState {
            threads,
            cells,
            flight,
            sleepers,
            clock: self.clock,
            instances: self.instances,
            timeouts: self.timeouts,
            printed: self.printed,
            output: self.output,
            errors: self.errors,
        })
    }
}

impl Keyed for NumberState {
    ghost use Rattle.number_states.specs.Keys.{state_key};

    ghost key = { state_key };

    fn put_key(&self, _alloc: Global, out: &mut Vec<u32>) -> Result<(), NoMemory> {
        put_threads(self.threads.as_slice(), out)?;
        put_cells(self.cells.as_slice(), out)?;
        put_flight(self.flight.as_slice(), out)?;
        put_sleepers(self.sleepers.as_slice(), out)?;
        put_counts(self, out)
    }
}
