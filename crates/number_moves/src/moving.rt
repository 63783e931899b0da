ghost use Rattle.std.specs.Prelude.{◌≡◌, ◌++◌, IfOk, IfSome, MatchOption, Some, None};
ghost use Rattle.slot_states.specs.Printing.{output_by, errors_by};
ghost use Rattle.number_states.specs.Stocks.{HasGrown, text_at};
ghost use Rattle.number_states.specs.States.{AreIn, slots};
ghost use Rattle.number_changes.specs.Moves.{Enters};
ghost use Rattle.number_moves.specs.Going.{next_at};

use crate::ending::finish;
use crate::local::local;
use crate::operations::operate;
use crate::receiving::{receive, wake};
use crate::stranding::strand;
use crate::ticking::tick;
use hs_base::NoMemory;
use hs_rules::Entry;
use number_changes::acting;
use number_states::{NumberState, Numbers};
use rules_code::CodeBody;
use std::alloc::Global;

/// The state that an entry leaves of a state, or none where there is none. Where memory runs out, or a number would be too
/// large, the tables may have more numbers than before.
pub fn next(
    alloc: Global,
    body: &CodeBody,
    numbers: &mut Numbers,
    state: &NumberState,
    entry: Entry,
) -> Result<Option<NumberState>, NoMemory>
    requires { AreIn numbers.old state.now }
    ensures is { IfOk result (λ found. MatchOption found (next_at body.now numbers.old state.now entry ≡ None) (λ y. next_at body.now numbers.old state.now entry ≡ Some (slots numbers.new body.now y))) }
    ensures output { IfOk result (λ found. IfSome found (λ y. text_at numbers.new y.output ≡ text_at numbers.old state.now.output ++ output_by (slots numbers.old body.now state.now) entry)) }
    ensures errors { IfOk result (λ found. IfSome found (λ y. text_at numbers.new y.errors ≡ text_at numbers.old state.now.errors ++ errors_by (slots numbers.old body.now state.now) entry)) }
    ensures there { IfOk result (λ found. IfSome found (λ y. AreIn numbers.new y)) }
    ensures grows { HasGrown numbers.old numbers.new }
{
    match acting(state, 0) {
        Some(_) => enter(alloc, body, numbers, state, entry),
        None => Ok(None),
    }
}

/// The state that an entry leaves, where the main thread hasn't finished.
fn enter(
    alloc: Global,
    body: &CodeBody,
    numbers: &mut Numbers,
    state: &NumberState,
    entry: Entry,
) -> Result<Option<NumberState>, NoMemory>
    requires { AreIn numbers.old state.now }
    ensures is { IfOk result (λ found. Enters entry body.now numbers.old state.now numbers.new found) }
    ensures grows { HasGrown numbers.old numbers.new }
{
    match entry {
        Entry::Local { t, k } => local(alloc, body, numbers, state, t, k),
        Entry::Op { t } => operate(alloc, numbers, state, t),
        Entry::Receive { t } => receive(alloc, numbers, state, t),
        Entry::Wake { t } => wake(alloc, numbers, state, t),
        Entry::Finish { t } => finish(alloc, numbers, state, t),
        Entry::Tick { at } => tick(alloc, numbers, state, at),
        Entry::Stranded => strand(alloc, numbers, state),
    }
}
