ghost use Rattle.std.specs.Prelude.{◌≡◌, ◌≤◌, ◌<◌, ◌++◌, ◌∷◌, [], ℕ, length, drop, map, slice_get, IfOk, OnOk, Some};
ghost use Rattle.conc_outcomes.specs.declared.finiteness.marks.Mark.TheVariants as mark;
ghost use Rattle.state_search.specs.declared.found.Move as found;
ghost use Rattle.state_search.specs.Meaning.{edge_of};
ghost use Rattle.search_laws.specs.Found.{Edge, AreInOrder};
ghost use Rattle.conc_outcomes.specs.finiteness.Walks.{AreWithin, Walks, Goes, Answers, Judges};

use crate::finiteness::marks::{Ends, Mark};
use hs_base::NoMemory;
use state_search::Move;
use std::alloc::Global;

/// A walk along moves, in depth: from the first state always on to one that is new, and back where there is none.
#[derive(Drop)]
struct Walk {
    /// By number of the state.
    marks: Vec<Mark>,
    /// The places of the moves that lead from the first state to where the walk is.
    path: Vec<usize>,
    at: u32,
    /// The place of the next move to look at.
    place: usize,
}

/// The place of the first move that leads from this state or from one behind it.
fn first_from(moves: &[Move], state: u32) -> usize
    requires { AreInOrder (map edge_of moves.now) }
    ensures bound { result ≤ length moves.now }
    ensures before { (k : ℕ) (g : Edge) → slice_get (map edge_of moves.now) k ≡ Some g → k < result → g.from < state }
    ensures behind { (k : ℕ) (g : Edge) → slice_get (map edge_of moves.now) k ≡ Some g → result ≤ k → state ≤ g.from }
{
    moves.partition_point(|step| step.from < state)
}

/// What stands in the path from this depth on, and then this place.
fn round(alloc: Global, path: &[usize], depth: usize, place: usize) -> Result<Vec<usize>, NoMemory>
    requires { depth ≤ length path.now }
    ensures { IfOk result (λ r. r.items ≡ drop depth path.now ++ place ∷ []) }
{
    let mut round = Vec::from_slice(alloc, &path[depth..])?;
    match round.push(place) {
        Err(_) => Err(NoMemory),
        Ok(()) => Ok(round),
    }
}

impl Walk {
    /// A walk of so many states that stands at the first.
    fn begin(alloc: Global, moves: &[Move], count: usize) -> Result<Walk, NoMemory>
        requires within { AreWithin count (map edge_of moves.now) }
        requires some { 0 < count }
        ensures { IfOk result (λ w. Walks (map edge_of moves.now) w.marks.items w.path.items w.at w.place) }
    {
        let mut marks = vec![in alloc; Mark::New; count]?;
        marks[0] = Mark::Open(0);
        Ok(Walk {
            marks,
            path: Vec::new(alloc),
            at: 0,
            place: 0,
        })
    }

    /// Goes on along a move to a state that is new.
    fn go(&mut self, moves: &[Move], state: u32) -> Result<(), NoMemory>
        requires order { AreInOrder (map edge_of moves.now) }
        requires walks { Walks (map edge_of moves.now) self.old.marks.items self.old.path.items self.old.at self.old.place }
        requires leads { (g : Edge) × (slice_get (map edge_of moves.now) self.old.place ≡ Some g) × (g.from ≡ self.old.at) × (g.to ≡ state) }
        requires new { slice_get self.old.marks.items state ≡ Some mark.New }
        ensures { OnOk result (Goes (map edge_of moves.now) self.old.marks.items self.old.place self.new.marks.items self.new.path.items self.new.at self.new.place) }
    {
        match self.path.push(self.place) {
            Err(_) => Err(NoMemory),
            Ok(()) => {
                self.marks[state as usize] = Mark::Open(self.path.len());
                self.at = state;
                self.place = first_from(moves, state);
                Ok(())
            }
        }
    }

    /// Goes back along the path, where no move is left; or the walk is over.
    fn back(&mut self, moves: &[Move]) -> Option<Ends>
        requires order { AreInOrder (map edge_of moves.now) }
        requires walks { Walks (map edge_of moves.now) self.old.marks.items self.old.path.items self.old.at self.old.place }
        requires over { (p : ℕ) (g : Edge) → slice_get (map edge_of moves.now) p ≡ Some g → g.from ≡ self.old.at → p < self.old.place }
        ensures { Answers (map edge_of moves.now) self.old.marks.items self.old.place self.new.marks.items self.new.path.items self.new.at self.new.place result }
    {
        self.marks[self.at as usize] = Mark::Done;
        match self.path.pop() {
            None => Some(Ends::Never),
            Some(place) => {
                self.at = moves[place].from;
                self.place = place + 1;
                None
            }
        }
    }

    /// Looks along the next move, which leads to this state.
    fn look(&mut self, alloc: Global, moves: &[Move], state: u32) -> Result<Option<Ends>, NoMemory>
        requires order { AreInOrder (map edge_of moves.now) }
        requires walks { Walks (map edge_of moves.now) self.old.marks.items self.old.path.items self.old.at self.old.place }
        requires leads { (g : Edge) × (slice_get (map edge_of moves.now) self.old.place ≡ Some g) × (g.from ≡ self.old.at) × (g.to ≡ state) }
        ensures { IfOk result (λ r. Answers (map edge_of moves.now) self.old.marks.items self.old.place self.new.marks.items self.new.path.items self.new.at self.new.place r) }
    {
        match self.marks[state as usize] {
            Mark::Done => {
                self.place += 1;
                Ok(None)
            }
            Mark::Open(depth) => {
                let moves = round(alloc, &self.path, depth, self.place)?;
                Ok(Some(Ends::Round { at: state, moves }))
            }
            Mark::New => {
                self.go(moves, state)?;
                Ok(None)
            }
        }
    }

    /// One step; where the walk is over, its answer.
    fn step(&mut self, alloc: Global, moves: &[Move]) -> Result<Option<Ends>, NoMemory>
        requires order { AreInOrder (map edge_of moves.now) }
        requires walks { Walks (map edge_of moves.now) self.old.marks.items self.old.path.items self.old.at self.old.place }
        ensures { IfOk result (λ r. Answers (map edge_of moves.now) self.old.marks.items self.old.place self.new.marks.items self.new.path.items self.new.at self.new.place r) }
    {
        match moves.get(self.place) {
            Some(next) if next.from == self.at => self.look(alloc, moves, next.to),
            _ => Ok(self.back(moves)),
        }
    }
}

/// Whether moves between so many states go round somewhere, seen from the first.
pub fn find_round(alloc: Global, moves: &[Move], count: usize) -> Result<Ends, NoMemory>
    requires order { AreInOrder (map edge_of moves.now) }
    requires within { AreWithin count (map edge_of moves.now) }
    requires some { 0 < count }
    ensures { IfOk result (λ e. Judges (map edge_of moves.now) e) }
{
    let mut walk = Walk::begin(alloc, moves, count)?;
    loop {
        if let Some(ends) = walk.step(alloc, moves)? {
            return Ok(ends);
        }
    }
}
