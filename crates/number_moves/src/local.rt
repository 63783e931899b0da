//! A Local: so many local rules of a thread in turn.
ghost use Rattle.std.specs.Prelude.{◌≡◌, IfOk, IfSome, MatchOption, Some, None};
ghost use Rattle.hs_rules.specs.declared.entry.Entry.TheVariants as entry;
ghost use Rattle.number_states.specs.Stocks.{HasGrown, IsTerm, term_at};
ghost use Rattle.number_states.specs.States.{AreIn};
ghost use Rattle.number_changes.specs.Moves.{Enters};
ghost use Rattle.number_moves.specs.Going.{rules_at};

use hs_base::NoMemory;
use number_changes::acting;
use number_states::{NumberState, Numbers};
use rules_code::CodeBody;
use std::alloc::Global;

/// The number of the term after so many local rules, or none where they do not apply.
fn steps(
    alloc: Global,
    body: &CodeBody,
    numbers: &mut Numbers,
    term: u32,
    k: u32,
) -> Result<Option<u32>, NoMemory>
    requires { IsTerm numbers.old term }
    ensures is { IfOk result (λ found. MatchOption found (rules_at body.now numbers.old k term ≡ None) (λ n. rules_at body.now numbers.old k term ≡ Some (term_at numbers.new body.now n))) }
    ensures there { IfOk result (λ found. IfSome found (λ n. IsTerm numbers.new n)) }
    ensures grows { HasGrown numbers.old numbers.new }
{
    let mut at = term;
    let mut left = k;
    while left > 0 {
        match numbers.step(alloc, body, at)? {
            None => return Ok(None),
            Some(step) => at = step.term,
        }
        left -= 1;
    }
    Ok(Some(at))
}

/// So many local rules of a thread, at least one.
pub fn local(
    alloc: Global,
    body: &CodeBody,
    numbers: &mut Numbers,
    state: &NumberState,
    t: u32,
    k: u32,
) -> Result<Option<NumberState>, NoMemory>
    requires { AreIn numbers.old state.now }
    ensures is { IfOk result (λ found. Enters (entry.Local t k) body.now numbers.old state.now numbers.new found) }
    ensures grows { HasGrown numbers.old numbers.new }
{
    let Some(thread) = acting(state, t) else {
        return Ok(None);
    };
    if k == 0 {
        return Ok(None);
    }
    if thread.blocked {
        return Ok(None);
    }
    let Some(term) = steps(alloc, body, numbers, thread.term, k)? else {
        return Ok(None);
    };
    let mut next = state.copy(alloc)?;
    next.move_to(numbers, t, term);
    Ok(Some(next))
}
