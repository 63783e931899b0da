//! Entries that would exceed a limit.
ghost use Rattle.std.specs.Prelude.{◌≡◌, ◌<◌, ◌^◌, ◌≤◌, ◌+◌, true, false, IfSome, IfNone};
ghost use Rattle.rules_code.specs.declared.code.CodeBody.{CodeBody};
ghost use Rattle.hs_rules.specs.Histories.{steps_of};
ghost use Rattle.hs_rules.specs.declared.entry.Entry.TheVariants as entry;
ghost use Rattle.hs_rules.specs.declared.entry.LimitKind.TheVariants as limit;
ghost use Rattle.slot_states.specs.Growing.{performed, op_of, doer, forked, celled};
ghost use Rattle.frame_stack.specs.Parts.{part_of};
ghost use Rattle.thread_table.specs.Table.{frames_over};
ghost use Rattle.world_entries.specs.Worlds.{state_of, Goes, Starts};

use crate::history::acts::NextEntry;
use crate::history::record::Record;
use frame_stack::{Control, Prim, Slice};
use hs_rules::LimitKind;

/// What an operation makes: threads with a frame each, and cells.
#[derive(Clone, Copy)]
struct Made {
    threads: u32,
    cells: u32,
}

/// What the operation of a control makes.
fn made_by(control: &Control) -> Made
    ensures threads { (b : CodeBody) → result.threads ≡ forked (performed (part_of b control.now)) }
    ensures cells { (b : CodeBody) → result.cells ≡ celled (performed (part_of b control.now)) }
{
    match control {
        Control::Op(Prim::Fork(_, _)) => Made {
            threads: 1,
            cells: 0,
        },
        Control::Op(Prim::ForkUnmask(_, _)) => Made {
            threads: 1,
            cells: 0,
        },
        Control::Op(Prim::NewMVar(_)) => Made {
            threads: 0,
            cells: 1,
        },
        Control::Op(Prim::NewEmptyMVar) => Made {
            threads: 0,
            cells: 1,
        },
        _ => Made {
            threads: 0,
            cells: 0,
        },
    }
}

impl Record {
    ghost use Rattle.run_course.specs.history.Acts.{entry_of};
    ghost use Rattle.run_course.specs.history.Records.{Can, Fits, Prints, WouldExceed};

    /// The limit that the entry of an act which prints so many bytes would exceed, the first in their order.
    pub fn exceeds(&self, act: NextEntry, bytes: usize) -> Option<LimitKind>
        requires goes { Goes self.now.world }
        requires can { Can act self.now.world }
        requires fuel { steps_of self.now.history.list + 1 ≤ self.now.fuel }
        requires bytes { Prints bytes act self.now }
        ensures some { IfSome result (λ kind. WouldExceed kind (entry_of act) self.now) }
        ensures none { IfNone result (Fits (entry_of act) self.now) }
        ensures few { IfNone result (bytes < 2 ^ 32) }
    {
        let makes = self.makes(act);
        let threads_left = u64::from(self.limits.threads) - self.world.threads.list.len() as u64;
        if u64::from(makes.threads) > threads_left {
            return Some(LimitKind::Threads);
        }
        let cells_left = u64::from(self.limits.cells) - self.world.cells.len() as u64;
        if u64::from(makes.cells) > cells_left {
            return Some(LimitKind::Cells);
        }
        if u64::from(makes.threads) > self.frames_left() {
            return Some(LimitKind::Frames);
        }
        let output_left = u64::from(self.limits.output) - self.world.printed;
        if bytes as u64 > output_left {
            return Some(LimitKind::Output);
        }
        None
    }

    /// What the operation of an act makes.
    fn makes(&self, act: NextEntry) -> Made
        ensures threads { (b : CodeBody) → result.threads ≡ forked (op_of (doer (state_of b self.now.world) (entry_of act))) }
        ensures cells { (b : CodeBody) → result.cells ≡ celled (op_of (doer (state_of b self.now.world) (entry_of act))) }
    {
        match act {
            NextEntry::Op(t) => match self.world.threads.list.get(t as usize) {
                Some(thread) => made_by(thread.stack.control()),
                None => Made {
                    threads: 0,
                    cells: 0,
                },
            },
            _ => Made {
                threads: 0,
                cells: 0,
            },
        }
    }

    /// How many frames more are allowed.
    fn frames_left(&self) -> u64
        ensures { result + frames_over self.now.world.threads.list.items ≡ self.now.limits.frames }
    {
        u64::from(self.limits.frames) - self.world.threads.frames
    }

    /// Whether the local rules of a slice would exceed the limit of frames.
    pub fn frames_exceed(&self, slice: &Slice) -> bool
        requires goes { Goes self.now.world }
        requires code { slice.now.of.value ≡ self.now.of.value }
        requires starts { Starts slice.now self.now.world }
        requires fuel { steps_of self.now.history.list + slice.now.steps ≤ self.now.fuel }
        ensures yes { result ≡ true → WouldExceed limit.Frames (entry.Local slice.now.tid slice.now.steps) self.now }
        ensures no { result ≡ false → Fits (entry.Local slice.now.tid slice.now.steps) self.now }
    {
        u64::from(slice.pushed.len()) > self.frames_left()
    }
}
