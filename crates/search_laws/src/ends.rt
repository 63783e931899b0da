//! Whether every schedule ends, read off what a search has found. This module has no code: each public function with an empty
//! body carries laws as its contract, so that a caller may use them and a reader find them.
//!
//! To a contract a search is its states and the edges between them, as `search_laws` has them. Ranks (`specs/ends/Rounds.antt`) fall
//! along each edge by more than the eager rules behind its entry, and a round is some edges that lead from a state back to it.
//!
//! Its promise: where a search has gone on from each of its states and there are such ranks, there is a bound on all runs of the
//! timing; and where some run comes to a state of a round, the script goes on for ever. How ranks or a round are found is left to
//! the crate that goes over the edges.

ghost use Rattle.rules_expansion.specs.trees.Programs.{script_of};
ghost use Rattle.outcome_laws.specs.Timings.{IsEndless};
ghost use Rattle.search_laws.specs.ends.Rounds.{HaveBound};
ghost use Rattle.search_laws.specs.ends.EndingLaws.{WhereRanksFall, RoundsHaveWork, RoundsAreEndless};

/// Where ranks fall along each edge of a search that has gone on from each state, there is a number of entries other than Ticks
/// that no run of the timing has more of. So the script isn't endless.
pub fn ranks_bound_runs()
    ensures bound { WhereRanksFall (λ clock script. HaveBound clock (script_of script)) }
    ensures ends { WhereRanksFall (λ clock script. ¬ IsEndless clock (script_of script)) }
{}

/// Where some edges lead from a state that a run comes to back to it, one of them isn't a Tick, and the script is endless.
pub fn rounds_go_on()
    ensures works { RoundsHaveWork }
    ensures endless { RoundsAreEndless }
{}
