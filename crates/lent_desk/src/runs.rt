//! What the capabilities do with a desk.
ghost use Rattle.std.specs.Prelude.{◌≡◌, IsSome};
ghost use Rattle.run_course.specs.Settled.{GoesOn, KeepsPlan};

use crate::desk::LentDesk;
use crate::lent::LentAs;
use caps_visits::{Runs, Unsliced};
use conc_world::{Committed, Desk, MOST_STEPS, Made, alone};
use frame_stack::{Job, Slice, SliceFault, slice};
use hs_base::NoMemory;
use hs_io::{Clock, Cutter, Sink};
use hs_rules::{Code, Kept};
use std::alloc::Global;

/// A slice of fewer rules than this takes less time than to hand out its job.
const SHORT: u32 = 64;
/// So many slices one after the other at most, so that the turn comes back to those that wait for it.
const IN_PLACE: u32 = 64;

/// Goes on with the turn where that takes less time than to hand out jobs: after a short slice with others that are short, and
/// after one that was made anew with others like it, since of those to come none could be compared either.
fn go_on_after<O: Sink, E: Sink, K: Clock>(desk: &mut Desk<O, E, K>, made: Made, rules: u32)
    ensures goes { GoesOn desk.old.course.end desk.old.course.clocked.record.history.list desk.new.course.end desk.new.course.clocked.record.history.list }
    ensures plan { KeepsPlan desk.old.course.clocked.record desk.new.course.clocked.record }
    ensures lent { (desk.new.course.out_lent ≡ desk.old.course.out_lent) × (desk.new.course.err_lent ≡ desk.old.course.err_lent) × (desk.new.course.clocked.lent ≡ desk.old.course.clocked.lent) }
    ensures code { desk.new.code ≡ desk.old.code }
{
    match made {
        Made::Anew => {
            let _ = desk.go_on(IN_PLACE, MOST_STEPS);
        }
        Made::Before => {
            if rules < SHORT {
                let _ = desk.go_on(IN_PLACE, SHORT);
            }
        }
    }
}

impl<O: Sink, E: Sink, K: Clock, N: LentAs> Kept for LentDesk<O, E, K, N> {
    ghost plan = { λ d. ⟦<Desk<O, E, K> as Kept>⟧.plan d.desk.value };

    ghost history = { λ d. ⟦<Desk<O, E, K> as Kept>⟧.history d.desk.value };
}

impl<O: Sink, E: Sink, K: Clock, N: LentAs> Runs<Job, Slice> for LentDesk<O, E, K, N> {
    ghost has_ended = { λ d. IsSome d.desk.value.course.end };

    fn code(&self) -> Result<Code, NoMemory> {
        self.desk.code().share()
    }

    fn is_ended(&self) -> bool {
        self.desk.ended().is_some()
    }

    fn settle(&mut self) -> Result<(), NoMemory> {
        self.desk.settle()
    }

    fn next_job(&mut self) -> Result<Option<Job>, NoMemory> {
        self.desk.next_job()
    }

    fn commit(&mut self, slice: Slice) -> bool {
        let rules = slice.steps;
        let (committed, made) = self.desk.commit_or_redo(slice);
        match committed {
            Committed::Taken => {
                go_on_after(&mut self.desk, made, rules);
                true
            }
            _ => false,
        }
    }

    fn overtaken(&mut self) -> Option<u64> {
        self.desk.overtaken()
    }

    fn no_memory(&mut self) {
        self.desk.no_memory();
    }

    fn alone(&mut self) {
        alone(&mut self.desk);
    }

    fn slice<C: Cutter>(
        alloc: Global,
        code: &Code,
        job: Job,
        cutter: &mut C,
    ) -> Result<Slice, Unsliced> {
        match slice(alloc, code, job, cutter) {
            Ok(slice) => Ok(slice),
            Err(SliceFault::Cut { loaded: _ }) => Err(Unsliced::Cut),
            Err(SliceFault::NoMemory) => Err(Unsliced::NoMemory),
        }
    }
}
