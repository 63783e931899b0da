ghost use Rattle.std.specs.Prelude.{◌≡◌, OnOk, IfOk};
ghost use Rattle.rules_code.specs.declared.code.CodeBody.{CodeBody};
ghost use Rattle.rules_code.specs.Codes.{body_of};

use exn_flight::Sleepers;
use frame_stack::{Control, Env, Stack};
use hs_base::NoMemory;
use mvar_cell::Cells;
use rules_code::Code;
use std::alloc::Global;
use thread_table::Threads;

/// What stands for a state.
pub struct World {
    pub alloc: Global,
    pub threads: Threads,
    pub cells: Cells,
    pub sleepers: Sleepers,
    /// In microseconds.
    pub clock: u64,
    /// So many uses of `bracket` have been numbered.
    pub instances: u32,
    /// So many uses of `timeout` have been numbered.
    pub timeouts: u32,
    /// The bytes printed so far, on both streams.
    pub printed: u64,
}

// Written out, so that it is proved once, here, and not in each function above that lets one go.
impl Drop for World {
    fn drop(self) {
        let World {
            alloc: _,
            threads: _,
            cells: _,
            sleepers: _,
            clock: _,
            instances: _,
            timeouts: _,
            printed: _,
        } = self;
    }
}

/// So many threads have numbers.
const NUMBERS: usize = 1 << 32;

/// So many bytes are printed at most.
const MOST_PRINTED: u64 = 1 << 63;

impl World {
    ghost use Rattle.world_entries.specs.First.{first_state};
    ghost use Rattle.world_entries.specs.Worlds.{state_of, SameState, HasRoom};

    /// The first state: main alone, which is to do its action.
    pub fn first(alloc: Global, code: &Code) -> Result<World, NoMemory>
        ensures { IfOk result (λ w. (b : CodeBody) → b ≡ body_of code.now → state_of b w ≡ first_state b) }
    {
        let stack = Stack::first(alloc, Control::Doing(code.main(), Env::new(alloc)));
        Ok(World {
            alloc,
            threads: Threads::first(alloc, stack)?,
            cells: Cells::new(alloc),
            sleepers: Sleepers::new(alloc),
            clock: 0,
            instances: 0,
            timeouts: 0,
            printed: 0,
        })
    }

    /// Makes room for one entry. Fails too where a number is used up.
    pub fn room(&mut self) -> Result<(), NoMemory>
        ensures state { SameState self.old self.new }
        ensures threads { self.new.threads.list.items ≡ self.old.threads.list.items }
        ensures flight { self.new.threads.flight.list ≡ self.old.threads.flight.list }
        ensures ok { OnOk result (HasRoom self.new) }
    {
        if self.instances >= u32::MAX - 1 || self.timeouts >= u32::MAX - 1 {
            return Err(NoMemory);
        }
        if self.printed >= MOST_PRINTED || self.threads.list.len() >= NUMBERS {
            return Err(NoMemory);
        }
        self.threads.room()?;
        self.cells.room(1)?;
        self.sleepers.room(1)?;
        Ok(())
    }
}
