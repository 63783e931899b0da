ghost use Rattle.std.specs.Prelude.{◌≡◌, [], ◌∷◌, None};
ghost use Rattle.rules_typing.specs.TypingFaults.{place, rank};
ghost use Rattle.typing_judge.specs.Least.{before, least};
ghost use Rattle.typing_parts.specs.Views.{broken_of, kept_of};

use crate::fault::Form;
use hs_base::Pos;
use typing_table::table::TypeTable;
use typing_table::ty::TypeTerm;

/// What was asked of a part: one type, or a type of a form.
#[derive(Debug, Drop)]
pub enum Asked {
    Exactly(TypeTerm),
    Form(Form),
}

/// A broken rule. Its types are the checker's: the one that is answered is written out at the end, once.
#[derive(Debug, Drop)]
pub enum Broken {
    Twice(Pos),
    Unknown(Pos),
    Kind(Pos),
    Forward(Pos),
    Arity(Pos, u32, u32),
    Mismatch(Pos, Asked, TypeTerm),
    Scope(Pos),
    Wide(Pos),
    Large(Pos),
}

/// The first broken rule of those that were noted.
#[derive(Drop)]
pub struct First {
    pub fault: Option<Broken>,
}

fn place_of(f: &Broken) -> Pos
    ensures { result ≡ place (broken_of [] f.now) }
{
    match f {
        Broken::Twice(p) => *p,
        Broken::Unknown(p) => *p,
        Broken::Kind(p) => *p,
        Broken::Forward(p) => *p,
        Broken::Arity(p, _, _) => *p,
        Broken::Mismatch(p, _, _) => *p,
        Broken::Scope(p) => *p,
        Broken::Wide(p) => *p,
        Broken::Large(p) => *p,
    }
}

fn rank_of(f: &Broken) -> u8
    ensures { result ≡ rank (broken_of [] f.now) }
{
    match f {
        Broken::Twice(_) => 0,
        Broken::Unknown(_) => 1,
        Broken::Kind(_) => 2,
        Broken::Forward(_) => 3,
        Broken::Arity(_, _, _) => 4,
        Broken::Mismatch(_, _, _) => 5,
        Broken::Scope(_) => 6,
        Broken::Wide(_) => 7,
        Broken::Large(_) => 8,
    }
}

fn comes_before(f: &Broken, g: &Broken) -> bool
    ensures { result ≡ before (broken_of [] f.now) (broken_of [] g.now) }
{
    let p = place_of(f);
    let q = place_of(g);
    let a = rank_of(f);
    let b = rank_of(g);
    p.line < q.line || (p.line == q.line && (p.col < q.col || (p.col == q.col && a < b)))
}

impl First {
    pub fn new() -> First
        ensures { result.fault ≡ None }
    {
        First { fault: None }
    }

    /// Keeps a broken rule that comes before the one that is kept. (The table is for the contract, which reads the two by it.)
    #[tactic(auto, using(crate::proofs::Earlier::before_by))]
    pub fn note(&mut self, _types: &TypeTable, f: Broken)
        ensures { kept_of _types.now.nodes self.new.fault ≡ least (kept_of _types.now.nodes self.old.fault) (broken_of _types.now.nodes f ∷ []) }
    {
        let earlier = match &self.fault {
            None => true,
            Some(g) => comes_before(&f, g),
        };
        if earlier {
            self.fault = Some(f);
        }
    }
}
