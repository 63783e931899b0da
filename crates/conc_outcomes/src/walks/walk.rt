//! A walk, one entry after another.
ghost use Rattle.std.specs.Prelude.{◌≡◌, ◌++◌, ◌∷◌, [], true, false, IfOk, OnOk, IsTrue};
ghost use Rattle.outcome_listing.specs.declared.bounds.Bounds.{Bounds as AnyBounds};
ghost use Rattle.hs_base.specs.declared.clock_choice.ClockChoice.{ClockChoice as AClock};
ghost use Rattle.local_steps.specs.Machine.{funs_of};
ghost use Rattle.number_tables.specs.Tables.{Grows};
ghost use Rattle.number_states.specs.Stocks.{HasGrown};
ghost use Rattle.number_states.specs.States.{AreIn, slots};
ghost use Rattle.conc_outcomes.specs.walks.Entering.{IsAt, EntryMay};

use crate::walks::still::is_still;
use hs_base::{ClockChoice, NoMemory};
use hs_rules::{Entry, History};
use number_moves::next;
use number_moves::rests::{EagerRules, rest};
use number_states::waits::{due_of, first_due};
use number_states::{NumberState, Numbers, first};
use outcome_listing::Bounds;
use rules_code::CodeBody;
use state_search::{exceeded, reads_time};
use std::alloc::Global;

/// Which Ticks a walk in real timing adds to the entries of a search, each before a Wake.
#[derive(Clone, Copy, Debug, PartialEq, Eq)]
pub enum Ticks {
    /// Where the sleeper isn't due yet, to its due.
    Needed,
    /// Before each Wake, as a search counts its steps: where the sleeper is due already, to the next moment.
    Each,
}

/// A run that is entered again.
#[derive(Drop)]
pub struct Walk {
    /// What the run leaves, in exact time.
    pub state: NumberState,
    /// The entries so far.
    pub history: History,
    /// Whether the last of them is a Tick.
    pub ticked: bool,
    /// Whether, in real timing, none of them reads the clock.
    pub unread: bool,
}

/// Whether an entry may stand behind a state, by the law of the clock and the timing. Where memory runs out the tables may have
/// more numbers than before.
fn may_stand(
    alloc: Global,
    body: &CodeBody,
    clock: ClockChoice,
    numbers: &mut Numbers,
    walk: &Walk,
    entry: Entry,
) -> Result<bool, NoMemory>
    requires { AreIn numbers.old walk.now.state }
    ensures may { IfOk result (λ yes. IsTrue yes → EntryMay clock (funs_of body.now) (slots numbers.old body.now walk.now.state) walk.now.ticked entry) }
    ensures grows { HasGrown numbers.old numbers.new }
{
    let Entry::Tick { at } = entry else {
        return Ok(true);
    };
    let Some(due) = first_due(walk.state.sleepers.as_slice()) else {
        return Ok(false);
    };
    match clock {
        ClockChoice::Real => Ok(due <= at && walk.state.clock < at && !walk.ticked),
        ClockChoice::Virtual => Ok(due == at && is_still(alloc, body, numbers, &walk.state)?),
    }
}

/// Whether no entry has read the clock, where this is so of all but the last and of the last it is known.
fn is_unread(before: bool, reads: bool) -> bool
    ensures { result ≡ true → (before ≡ true) × (reads ≡ false) }
{
    before && !reads
}

/// The Tick that stands before an entry: in real timing before a Wake, to its due where the clock isn't there yet, else to the next
/// moment where each Wake has one. The clock's last moment has no next.
fn tick_before(
    clock: ClockChoice,
    state: &NumberState,
    ticks: Ticks,
    entry: Entry,
) -> Option<Entry> {
    let (ClockChoice::Real, Entry::Wake { t }) = (clock, entry) else {
        return None;
    };
    let due = due_of(state.sleepers.as_slice(), t)?;
    if state.clock < due {
        return Some(Entry::Tick { at: due });
    }
    match ticks {
        Ticks::Needed => None,
        Ticks::Each => {
            let at = state.clock.checked_add(1)?;
            Some(Entry::Tick { at })
        }
    }
}

impl Walk {
    /// Before any entry.
    pub fn begin(alloc: Global, body: &CodeBody, numbers: &mut Numbers) -> Result<Walk, NoMemory>
        ensures at { IfOk result (λ w. (bounds : AnyBounds) → IsAt bounds body.now numbers.new w) }
        ensures history { IfOk result (λ w. w.history.list ≡ []) }
        ensures grows { HasGrown numbers.old numbers.new }
    {
        let state = first(alloc, numbers, body.main)?;
        Ok(Walk {
            state,
            history: History::new(alloc),
            ticked: false,
            unread: true,
        })
    }

    /// One entry, which has to be possible there, from a state that exceeds no limit; else the answer is want of memory, as it is
    /// where memory runs out. Nothing is said of the walk then.
    pub fn enter(
        &mut self,
        alloc: Global,
        body: &CodeBody,
        bounds: &Bounds,
        numbers: &mut Numbers,
        entry: Entry,
    ) -> Result<(), NoMemory>
        requires { IsAt bounds.now body.now numbers.old self.old }
        ensures at { OnOk result (IsAt bounds.now body.now numbers.new self.new) }
        ensures history { OnOk result (self.new.history.list ≡ self.old.history.list ++ entry ∷ []) }
        ensures grows { HasGrown numbers.old numbers.new }
    {
        if exceeded(numbers, &self.state, &bounds.limits)?.is_some() {
            return Err(NoMemory);
        }
        if !may_stand(alloc, body, bounds.clock, numbers, self, entry)? {
            return Err(NoMemory);
        }
        let reads = reads_time(numbers, &self.state, entry, bounds.clock);
        let Some(left) = next(alloc, body, numbers, &self.state, entry)? else {
            return Err(NoMemory);
        };
        self.history.push(entry)?;
        self.unread = is_unread(self.unread, reads);
        self.ticked = matches!(entry, Entry::Tick { at: _ });
        self.state = left;
        Ok(())
    }

    /// An entry of the path of a search, with the Tick that stands before it.
    pub fn take(
        &mut self,
        alloc: Global,
        body: &CodeBody,
        bounds: &Bounds,
        numbers: &mut Numbers,
        ticks: Ticks,
        entry: Entry,
    ) -> Result<(), NoMemory>
        requires { IsAt bounds.now body.now numbers.old self.old }
        ensures at { OnOk result (IsAt bounds.now body.now numbers.new self.new) }
        ensures history { OnOk result (Grows self.old.history.list self.new.history.list) }
        ensures grows { HasGrown numbers.old numbers.new }
    {
        if let Some(tick) = tick_before(bounds.clock, &self.state, ticks, entry) {
            self.enter(alloc, body, bounds, numbers, tick)?;
        }
        self.enter(alloc, body, bounds, numbers, entry)
    }

    /// Each of these, in order.
    pub fn take_all(
        &mut self,
        alloc: Global,
        body: &CodeBody,
        bounds: &Bounds,
        numbers: &mut Numbers,
        ticks: Ticks,
        entries: &[Entry],
    ) -> Result<(), NoMemory>
        requires { IsAt bounds.now body.now numbers.old self.old }
        ensures at { OnOk result (IsAt bounds.now body.now numbers.new self.new) }
        ensures history { OnOk result (Grows self.old.history.list self.new.history.list) }
        ensures grows { HasGrown numbers.old numbers.new }
    {
        for entry in entries {
            self.take(alloc, body, bounds, numbers, ticks, *entry)?;
        }
        Ok(())
    }

    /// The eager local rules that a search takes at once there, up to so many.
    pub fn settle(
        &mut self,
        alloc: Global,
        body: &CodeBody,
        bounds: &Bounds,
        numbers: &mut Numbers,
    ) -> Result<(), NoMemory>
        requires { IsAt bounds.now body.now numbers.old self.old }
        ensures at { OnOk result (IsAt bounds.now body.now numbers.new self.new) }
        ensures history { OnOk result (Grows self.old.history.list self.new.history.list) }
        ensures grows { HasGrown numbers.old numbers.new }
    {
        let mut state = self.state.copy(alloc)?;
        let mut rules = EagerRules::new(alloc);
        let mut locals = Vec::new(alloc);
        rest(
            alloc,
            body,
            numbers,
            &mut rules,
            &mut state,
            bounds.limits.frames,
            &mut locals,
        )?;
        self.take_all(
            alloc,
            body,
            bounds,
            numbers,
            Ticks::Needed,
            locals.as_slice(),
        )
    }
}
