ghost use Rattle.std.specs.Prelude.{◌≡◌};
ghost use Rattle.outcome_laws.specs.Outcomes.{place_of, outcome_cmp};
ghost use Rattle.outcome_listing.specs.Finals.{final_of};
ghost use Rattle.conc_outcomes.specs.order.Rising.{outcome_by};

use hs_base::Txt;
use outcome_listing::Final;
use std::cmp::Ordering;

/// How a run ended, what it printed, and the number of a state that it leaves.
#[derive(Debug, Drop)]
pub struct Ended {
    pub end: Final,
    pub out: Txt,
    pub err: Txt,
    pub state: u32,
}

/// The place of an end in the order of ends.
fn place(end: Final) -> u8
    ensures { result ≡ place_of (final_of end) }
{
    match end {
        Final::Done => 0,
        Final::Uncaught => 1,
        Final::Deadlock => 2,
    }
}

/// By end, then by output, then by errors, byte by byte.
pub fn compare(one: &Ended, other: &Ended) -> Ordering
    ensures { result ≡ outcome_cmp (outcome_by one.now) (outcome_by other.now) }
{
    let ends = place(one.end).cmp(&place(other.end));
    let outputs = one.out.as_str().cmp(other.out.as_str());
    let errors = one.err.as_str().cmp(other.err.as_str());
    ends.then(outputs.then(errors))
}
