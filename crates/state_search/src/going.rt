//! Going on from a state.
ghost use Rattle.std.specs.Prelude.{◌≡◌, ◌≤◌, ◌<◌, ◌+◌, ◌^◌, ℕ, IfOk, OnOk, MatchOption, length, Option, Some, None, slice_get, slice_set};
ghost use Rattle.std.specs.List.{AllByRecursion};
ghost use Rattle.rules_code.specs.declared.code.CodeBody.{CodeBody};
ghost use Rattle.outcome_listing.specs.declared.bounds.Bounds.{Bounds};
ghost use Rattle.outcome_listing.specs.declared.explored.Final.{Final};
ghost use Rattle.number_states.specs.States.{AreIn, Becomes};
ghost use Rattle.number_moves.specs.rests.Rules.{AreRules};
ghost use Rattle.search_laws.specs.Shown.{forget};
ghost use Rattle.search_laws.specs.Going.{steps_by as steps_of_entry};
ghost use Rattle.state_search.specs.Meaning.{shown};
ghost use Rattle.state_search.specs.Searching.{HasCause, Searched};
ghost use Rattle.state_search.specs.Working.{Going, Extends, IsTried, MayBeTaken, HasBegun, ComesTo, MayAdd, Bars, IsKeptAt, IsLeftBy, ArrivesAt, IsStillAt, settled};
ghost use Rattle.state_search.specs.EachTried.{MayAlways, HasTried};

use crate::candidates::entries_to_try;
use crate::found::{Found, Gap, Move, Origin};
use crate::kinds::{ended, exceeded, reads_time};
use hs_base::{ClockChoice, NoMemory};
use hs_rules::Entry;
use number_moves::next;
use number_moves::rests::{EagerRules, rest};
use number_states::waits::first_due;
use number_states::{NumberState, Numbers};
use outcome_listing::{Bounds, Cause, Final};
use rules_code::CodeBody;
use std::alloc::Global;

/// How many steps an entry has, and the Tick that it may wait for.
fn steps_by(clock: ClockChoice, entry: Entry) -> u64
    ensures { result ≡ steps_of_entry clock entry }
{
    match (clock, entry) {
        (ClockChoice::Real, Entry::Wake { t: _ }) => 2,
        _ => 1,
    }
}

/// Takes the time off a state, in real timing.
pub fn forget_time(state: &mut NumberState, numbers: &Numbers, clock: ClockChoice)
    requires { AreIn numbers.now state.old }
    ensures { Becomes (λ b. forget clock) numbers.now state.old numbers.now state.new }
{
    if clock == ClockChoice::Real {
        state.without_time(numbers);
    }
}

impl Found {
    /// Keeps a gap, where it is the first.
    fn note(&mut self, cause: Cause, by: Origin)
        ensures gap { self.new.gap ≡ None → ⊥ }
        ensures same { self.new ≡ record self.old { gap = self.new.gap } }
        ensures shows { (b : CodeBody) (bounds : Bounds) → Searched bounds b self.old → HasCause bounds b self.old by cause → Searched bounds b self.new }
    {
        if self.gap.is_none() {
            self.gap = Some(Gap { cause, by });
        }
    }

    /// Why a state on a path of so many steps may not be added, if it may not.
    fn bar(&self, bounds: &Bounds, steps: u64) -> Option<Cause>
        ensures { MatchOption result (MayAdd bounds.now self.now steps) (Bars bounds.now self.now steps) }
    {
        if steps > bounds.fuel as u64 {
            return Some(Cause::Fuel);
        }
        if self.states.len() >= bounds.states as usize {
            return Some(Cause::States);
        }
        None
    }

    /// The number of a state that may be added, which it is where it is new. Where memory runs out nothing is said of what was
    /// found.
    fn add(
        &mut self,
        alloc: Global,
        bounds: &Bounds,
        state: NumberState,
        by: Origin,
    ) -> Result<u32, NoMemory>
        requires there { AreIn self.old.numbers state }
        requires may { MayAdd bounds.now self.old by.steps }
        ensures going { OnOk result ((b : CodeBody) (n : ℕ) → n ≤ length self.old.states → Going bounds.now b n self.old → ComesTo bounds.now b self.old by state → Going bounds.now b n self.new) }
        ensures kept { IfOk result (λ j. (b : CodeBody) → IsKeptAt b self.new j (shown self.old.numbers b state)) }
        ensures extends { OnOk result ((b : CodeBody) → Extends b self.old self.new) }
        ensures numbers { OnOk result (self.new.numbers ≡ self.old.numbers) }
        ensures moves { OnOk result (self.new.moves ≡ self.old.moves) }
    {
        let _ = bounds;
        let kind = ended(&self.numbers, &state);
        let count = self.states.len();
        let number = self.states.number(alloc, state)?;
        if (number as usize) < count {
            return Ok(number);
        }
        self.origins.reserve(1)?;
        self.kinds.reserve(1)?;
        self.origins.push_reserved(by);
        self.kinds.push_reserved(kind);
        Ok(number)
    }

    /// The number of a state, which is added where it is new and may be; else that is a gap.
    fn keep(
        &mut self,
        alloc: Global,
        bounds: &Bounds,
        state: NumberState,
        by: Origin,
    ) -> Result<Option<u32>, NoMemory>
        requires { AreIn self.old.numbers state }
        ensures going { OnOk result ((b : CodeBody) (n : ℕ) → n ≤ length self.old.states → Going bounds.now b n self.old → ComesTo bounds.now b self.old by state → Going bounds.now b n self.new) }
        ensures kept { IfOk result (λ found. MatchOption found (self.new.gap ≡ None → ⊥) (λ j. (b : CodeBody) → IsKeptAt b self.new j (shown self.old.numbers b state))) }
        ensures extends { OnOk result ((b : CodeBody) → Extends b self.old self.new) }
        ensures numbers { OnOk result (self.new.numbers ≡ self.old.numbers) }
        ensures moves { OnOk result (self.new.moves ≡ self.old.moves) }
    {
        let Some(cause) = self.bar(bounds, by.steps) else {
            // Not asked first whether it is known, since its key would be made twice.
            let number = self.add(alloc, bounds, state, by)?;
            return Ok(Some(number));
        };
        if let Some(number) = self.states.known(alloc, &state)? {
            return Ok(Some(number));
        }
        self.note(cause, by);
        Ok(None)
    }

    /// Rests a state that an entry left, or with which a run begins, and keeps it; answers its number and how many eager rules
    /// were taken. A state that exceeds a limit is a gap.
    fn arrive(
        &mut self,
        alloc: Global,
        body: &CodeBody,
        bounds: &Bounds,
        state: NumberState,
        parent: u32,
        entry: Option<Entry>,
        steps: u64,
    ) -> Result<Option<(u32, u32)>, NoMemory>
        requires there { AreIn self.old.numbers state }
        requires few { steps < 2 ^ 33 }
        requires rules { AreRules body.now self.old.numbers self.old.rules }
        requires left { IsLeftBy bounds.now body.now self.old entry parent (shown self.old.numbers body.now state) steps }
        ensures going { OnOk result ((n : ℕ) → n ≤ length self.old.states → Going bounds.now body.now n self.old → Going bounds.now body.now n self.new) }
        ensures arrived { IfOk result (λ found. MatchOption found (self.new.gap ≡ None → ⊥) (λ r. (n : ℕ) → n ≤ length self.old.states → Going bounds.now body.now n self.old → ArrivesAt bounds.now body.now self.new entry parent r.0 r.1)) }
        ensures extends { OnOk result ((n : ℕ) → n ≤ length self.old.states → Going bounds.now body.now n self.old → Extends body.now self.old self.new) }
        ensures moves { OnOk result (self.new.moves ≡ self.old.moves) }
    {
        let mut state = state;
        let mut by = Origin {
            parent,
            entry,
            rest: Vec::new(alloc),
            steps,
        };
        if let Some(kind) = exceeded(&self.numbers, &state, &bounds.limits)? {
            self.note(Cause::Limit(kind), by);
            return Ok(None);
        }
        forget_time(&mut state, &self.numbers, bounds.clock);
        let eager = rest(
            alloc,
            body,
            &mut self.numbers,
            &mut self.rules,
            &mut state,
            bounds.limits.frames,
            &mut by.rest,
        )?;
        by.steps = steps + eager as u64;
        match self.keep(alloc, bounds, state, by)? {
            None => Ok(None),
            Some(number) => Ok(Some((number, eager))),
        }
    }

    /// Takes an entry in the state of a number, where it has a next state, and answers whether it has.
    pub fn take(
        &mut self,
        alloc: Global,
        body: &CodeBody,
        bounds: &Bounds,
        at: u32,
        entry: Entry,
    ) -> Result<bool, NoMemory>
        requires going { Going bounds.now body.now at self.old }
        requires there { at < length self.old.states }
        requires may { MayBeTaken bounds.now body.now self.old at entry }
        ensures going { OnOk result (Going bounds.now body.now at self.new) }
        ensures extends { OnOk result (Extends body.now self.old self.new) }
        ensures tried { IfOk result (λ legal. IsTried bounds.now body.now self.new at entry legal) }
    {
        let Some(state) = self.states.get(at) else {
            return Ok(false);
        };
        let Some(left) = next(alloc, body, &mut self.numbers, state, entry)? else {
            return Ok(false);
        };
        let before = self.origins[at as usize].steps;
        // Read for its range: no path has more steps, so the sum below fits.
        let _fuel = bounds.fuel;
        if reads_time(&self.numbers, state, entry, bounds.clock) {
            let by = Origin {
                parent: at,
                entry: Some(entry),
                rest: Vec::new(alloc),
                steps: before,
            };
            self.note(Cause::Clock, by);
            return Ok(true);
        }
        let steps = before + steps_by(bounds.clock, entry);
        if let Some((to, eager)) = self.arrive(alloc, body, bounds, left, at, Some(entry), steps)? {
            self.moves.reserve(1)?;
            self.moves.push_reserved(Move {
                from: at,
                entry,
                to,
                eager,
            });
        }
        Ok(true)
    }

    /// Nothing can go on in the state of a number, and nobody sleeps: it has ended, also where main hasn't.
    fn settle(&mut self, at: u32)
        requires { at < length self.old.kinds.items }
        ensures same { self.new ≡ record self.old { kinds = self.new.kinds } }
        ensures kinds { (k : Option Final) → slice_get self.old.kinds.items at ≡ Some k → self.new.kinds.items ≡ slice_set self.old.kinds.items at (settled k) }
    {
        if self.kinds[at as usize].is_none() {
            self.kinds[at as usize] = Some(Final::Deadlock);
        }
    }

    /// What there is where no entry but a Tick has a next state: a Tick in virtual timing, or, where nobody sleeps, an end.
    fn stay(
        &mut self,
        alloc: Global,
        body: &CodeBody,
        bounds: &Bounds,
        at: u32,
    ) -> Result<(), NoMemory>
        requires going { Going bounds.now body.now at self.old }
        requires there { at < length self.old.states }
        requires still { IsStillAt body.now self.old at }
        ensures going { OnOk result (Going bounds.now body.now (at + 1) self.new) }
        ensures extends { OnOk result (Extends body.now self.old self.new) }
    {
        let Some(state) = self.states.get(at) else {
            return Ok(());
        };
        let Some(due) = first_due(state.sleepers.as_slice()) else {
            self.settle(at);
            return Ok(());
        };
        match bounds.clock {
            ClockChoice::Real => Ok(()),
            ClockChoice::Virtual => {
                self.take(alloc, body, bounds, at, Entry::Tick { at: due })?;
                Ok(())
            }
        }
    }

    /// Takes each of these entries in the state of a number, and answers whether one has a next state.
    fn try_each(
        &mut self,
        alloc: Global,
        body: &CodeBody,
        bounds: &Bounds,
        at: u32,
        entries: &[Entry],
    ) -> Result<bool, NoMemory>
        requires going { Going bounds.now body.now at self.old }
        requires there { at < length self.old.states }
        requires always { AllByRecursion MayAlways entries.now }
        ensures { IfOk result (λ legal. HasTried bounds.now body.now self.old self.new at entries.now (length entries.now) legal) }
    {
        let mut legal = false;
        for entry in entries {
            if self.take(alloc, body, bounds, at, *entry)? {
                legal = true;
            }
        }
        Ok(legal)
    }

    /// Takes each entry that may be taken in the state of a number.
    pub fn go_on(
        &mut self,
        alloc: Global,
        body: &CodeBody,
        bounds: &Bounds,
        at: u32,
    ) -> Result<(), NoMemory>
        requires going { Going bounds.now body.now at self.old }
        requires there { at < length self.old.states }
        ensures going { OnOk result (Going bounds.now body.now (at + 1) self.new) }
        ensures extends { OnOk result (Extends body.now self.old self.new) }
    {
        let Some(state) = self.states.get(at) else {
            return Ok(());
        };
        let entries = entries_to_try(alloc, state)?;
        if self.try_each(alloc, body, bounds, at, entries.as_slice())? {
            return Ok(());
        }
        self.stay(alloc, body, bounds, at)
    }

    /// The first state alone, where it may be.
    pub fn begin(alloc: Global, body: &CodeBody, bounds: &Bounds) -> Result<Found, NoMemory>
        ensures going { IfOk result (λ f. Going bounds.now body.now 0 f) }
        ensures begun { IfOk result (λ f. HasBegun f) }
    {
        let mut found = Found {
            numbers: number_states::Numbers::new(alloc),
            rules: EagerRules::new(alloc),
            states: number_tables::Table::new(alloc),
            origins: Vec::new(alloc),
            kinds: Vec::new(alloc),
            moves: Vec::new(alloc),
            gap: None,
        };
        let first = number_states::first(alloc, &mut found.numbers, body.main)?;
        found.arrive(alloc, body, bounds, first, 0, None, 0)?;
        Ok(found)
    }
}
