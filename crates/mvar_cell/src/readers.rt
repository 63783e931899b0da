//! Readers that are taken out of a line one by one, and then a put. It has no code: a public function with an empty body
//! carries the law as its contract.

ghost use Rattle.std.specs.Prelude.{◌≡◌, ◌<◌, ℕ, List, length};
ghost use Rattle.rules_waiting.specs.OneCell.{Put, Try_put, readers};
ghost use Rattle.mvar_cell.specs.Mvars.{Mvars};
ghost use Rattle.mvar_cell.specs.Calls.{cell_at};
ghost use Rattle.mvar_cell.specs.Readers.{AreAllReaders, IsOneCallWithReaders};

/// Where `next_reader` is called until it answers nobody, it answered all that wait to read, in order. At an empty cell
/// these calls and the put after them are the machine's put: each reader is answered the value, then what the put says.
pub fn a_put_after_its_readers()
    ensures readers { (ts : List ℕ) (m : ℕ) (old mid : Mvars) → m < length old.cells → AreAllReaders ts m old mid → readers (cell_at m old).line ≡ ts }
    ensures put { IsOneCallWithReaders (λ t v. Put t v) }
    ensures try_put { IsOneCallWithReaders (λ t v. Try_put t v) }
{}
