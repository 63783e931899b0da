//! What a walk has come to.
ghost use Rattle.std.specs.Prelude.{◌≡◌, ◌++◌, ◌∷◌, [], IfOk, IfSome, OnOk, MatchOption};
ghost use Rattle.hs_base.specs.declared.tree.script.Script.{Script};
ghost use Rattle.rules_expansion.specs.trees.Programs.{script_of};
ghost use Rattle.number_states.specs.Stocks.{HasGrown};
ghost use Rattle.state_search.specs.Searching.{IsCodeOf};
ghost use Rattle.conc_outcomes.specs.walks.Walking.{ReadsLast};
ghost use Rattle.conc_outcomes.specs.walks.Entering.{IsAt, EndsIn, IsWithin, Exceeds};

use crate::walks::still::is_still;
use crate::walks::walk::Walk;
use hs_base::{ClockChoice, NoMemory};
use hs_rules::{Entry, LimitKind};
use number_states::Numbers;
use outcome_listing::{Bounds, Final};
use rules_code::CodeBody;
use state_search::{ended, exceeded, reads_time};
use std::alloc::Global;

impl Walk {
    /// The first limit that the state exceeds, if there is one.
    pub fn exceeds(
        &self,
        body: &CodeBody,
        bounds: &Bounds,
        numbers: &Numbers,
    ) -> Result<Option<LimitKind>, NoMemory>
        requires { IsAt bounds.now body.now numbers.now self.now }
        ensures { IfOk result (λ found. MatchOption found (IsWithin bounds.now body.now self.now) (λ kind. Exceeds bounds.now body.now self.now kind)) }
    {
        let _ = body;
        exceeded(numbers, &self.state, &bounds.limits)
    }

    /// How the run has ended of itself, if it has. Where memory runs out the tables may have more numbers than before.
    pub fn ended(
        &self,
        alloc: Global,
        body: &CodeBody,
        bounds: &Bounds,
        numbers: &mut Numbers,
    ) -> Result<Option<Final>, NoMemory>
        requires { IsAt bounds.now body.now numbers.old self.now }
        ensures ends { IfOk result (λ found. IfSome found (λ end. EndsIn body.now numbers.old self.now end)) }
        ensures grows { HasGrown numbers.old numbers.new }
    {
        let _ = bounds;
        if let Some(end) = ended(numbers, &self.state) {
            return Ok(Some(end));
        }
        if self.state.sleepers.is_empty() && is_still(alloc, body, numbers, &self.state)? {
            return Ok(Some(Final::Deadlock));
        }
        Ok(None)
    }

    /// One entry that reads the clock in real timing, where none before it does; else, or where it can't be entered, the answer is
    /// want of memory.
    pub fn enter_reading(
        &mut self,
        alloc: Global,
        body: &CodeBody,
        bounds: &Bounds,
        numbers: &mut Numbers,
        entry: Entry,
    ) -> Result<(), NoMemory>
        requires { IsAt bounds.now body.now numbers.old self.old }
        ensures reads { OnOk result ((script : Script) → IsCodeOf body.now script → ReadsLast bounds.now.clock bounds.now.limits (script_of script) self.new.history.list) }
        ensures grows { HasGrown numbers.old numbers.new }
    {
        if !self.unread {
            return Err(NoMemory);
        }
        if !reads_time(numbers, &self.state, entry, ClockChoice::Real) {
            return Err(NoMemory);
        }
        self.enter(alloc, body, bounds, numbers, entry)
    }
}
