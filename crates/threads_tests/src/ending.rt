//! A value of two jobs: the slice of the first brings an ending, and that of the second goes on until it is cut.
ghost use Rattle.std.specs.Prelude.{◌≡◌, [], IsTrue, true};
ghost use Rattle.std.specs.declared.option.Option.{Option};
ghost use Rattle.rules_code.specs.Codes.{body_of};

use crate::items::{Item, ticket_of};
use caps_visits::{Runs, Unsliced};
use hs_base::{Limits, NoMemory};
use hs_io::Cutter;
use hs_rules::{Code, Kept, Ticketed};
use std::alloc::Global;
use std::hint;
use std::sync::atomic::{AtomicBool, Ordering};

/// How often a slice looks before it gives up.
const LOOKS: u32 = 1_000_000_000;

/// What the slices tell each other, and the test.
#[derive(Debug, Drop)]
pub struct Signs {
    /// The second slice has begun.
    begun: AtomicBool,
    /// The second slice was cut.
    cut: AtomicBool,
}

impl Signs {
    pub fn new() -> Signs {
        Signs {
            begun: AtomicBool::new(false),
            cut: AtomicBool::new(false),
        }
    }

    pub fn was_cut(&self) -> bool {
        self.cut.load(Ordering::SeqCst)
    }
}

/// A job, and its slice.
#[derive(Drop)]
pub struct Task<'a> {
    pub item: Item,
    pub signs: &'a Signs,
}

impl<'a> Ticketed for Task<'a> {
    ghost number = { λ x. x.item.number };

    ghost belongs = { λ x. x.item.of.value };

    fn ticket(&self) -> u64 {
        self.item.number
    }
}

/// Hands out two jobs. A slice that comes back is an ending.
#[derive(Drop)]
pub struct Pair<'a> {
    pub code: Code,
    pub limits: Limits,
    pub given: u64,
    pub ended: bool,
    pub signs: &'a Signs,
}

impl<'a> Kept for Pair<'a> {
    ghost plan = { λ d. record {
      body = body_of d.code;
      fuel = 1;
      limits = d.limits;
      out_faults = 0;
      err_faults = 0;
      choice = Option.None;
      early = 0;
    } };

    ghost history = { λ _. [] };
}

impl<'a> Runs<Task<'a>, Task<'a>> for Pair<'a> {
    ghost has_ended = { λ d. d.ended ≡ true };

    fn code(&self) -> Result<Code, NoMemory> {
        self.code.share()
    }

    fn is_ended(&self) -> bool {
        self.ended
    }

    fn settle(&mut self) -> Result<(), NoMemory> {
        Ok(())
    }

    fn next_job(&mut self) -> Result<Option<Task<'a>>, NoMemory> {
        if self.ended || self.given >= 2 {
            return Ok(None);
        }
        self.given += 1;
        Ok(Some(Task {
            item: ticket_of(&self.code, self.given),
            signs: self.signs,
        }))
    }

    fn commit(&mut self, _slice: Task<'a>) -> bool {
        self.ended = true;
        true
    }

    fn overtaken(&mut self) -> Option<u64> {
        None
    }

    fn no_memory(&mut self) {
        self.ended = true;
    }

    fn alone(&mut self) {
        self.ended = true;
    }

    fn slice<C: Cutter>(
        _alloc: Global,
        _code: &Code,
        job: Task<'a>,
        cutter: &mut C,
    ) -> Result<Task<'a>, Unsliced> {
        let ticket = job.item.number;
        if ticket == 2 {
            if is_cut(ticket, job.signs, cutter) {
                return Err(Unsliced::Cut);
            }
        } else {
            wait_for_other(job.signs);
        }
        Ok(job)
    }
}

// Until the second slice has begun.
fn wait_for_other(signs: &Signs) {
    for _ in 0..LOOKS {
        if signs.begun.load(Ordering::SeqCst) {
            return;
        }
        hint::spin_loop();
    }
}

// Whether it is cut before it gives up.
fn is_cut<C: Cutter>(ticket: u64, signs: &Signs, cutter: &mut C) -> bool {
    signs.begun.store(true, Ordering::SeqCst);
    for _ in 0..LOOKS {
        if cutter.look() == ticket {
            signs.cut.store(true, Ordering::SeqCst);
            return true;
        }
        hint::spin_loop();
    }
    false
}
