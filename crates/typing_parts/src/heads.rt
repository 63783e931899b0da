ghost use Rattle.std.specs.Prelude.{◌≡◌, IfOk, Some, map, codes, length};
ghost use Rattle.rules_expansion.specs.trees.Trees.{wr_of};
ghost use Rattle.rules_expansion.specs.trees.Programs.{par_of, bd_of, fn_of};
ghost use Rattle.rules_typing.specs.Typing.{find};
ghost use Rattle.rules_typing.specs.TypingScripts.{sigs_from, sig_of_fn, param_types, result_of, is_none, is_unit, main_by};
ghost use Rattle.typing_table.specs.Meaning.{Grows, known};
ghost use Rattle.typing_parts.specs.Heads.{AllBelow, HeadBelow};
ghost use Rattle.typing_parts.specs.Views.{place_types, sig_of, sigs_of};

use crate::entry::Fun;
use crate::funs::Funs;
use hs_base::tree::{Body, Def, Param, Written};
use hs_base::{NoMemory, Txt};
use hs_items::Items;
use std::alloc::Global;
use typing_table::base::Base;
use typing_table::interner::Interner;
use typing_table::kind::{TypeKind, kind_in};
use typing_table::table::TypeTable;
use typing_table::ty::TypeTerm;

/// The declared type of a body.
pub fn written_of(b: &Body) -> &Written
    ensures { wr_of result.now ≡ result_of (bd_of b.now) }
{
    match b {
        Body::Pure(w, _) => w,
        Body::Action(w, _) => w,
    }
}

/// The heads of a script's definitions, in order, and the table of their types.
#[derive(Drop)]
pub struct Heads {
    pub types: TypeTable,
    pub sigs: Items<Fun>,
}

/// The places of the parameters' types.
fn places_of(
    alloc: Global,
    interner: &mut Interner,
    ps: &Items<Param>,
) -> Result<Items<usize>, NoMemory>
    ensures { IfOk result (λ places. Grows interner.old.types.nodes interner.new.types.nodes × AllBelow places (length interner.new.types.nodes) × (place_types interner.new.types.nodes places ≡ param_types (map par_of ps.now))) }
{
    let mut places = Items::new(alloc);
    'params: for p in ps.as_slice() {
        let place = interner.intern(&p.ty.ty)?;
        places.add(place)?;
    }
    Ok(places)
}

fn fun_of(alloc: Global, interner: &mut Interner, k: usize, d: &Def) -> Result<Fun, NoMemory>
    ensures { IfOk result (λ f. Grows interner.old.types.nodes interner.new.types.nodes × HeadBelow f (length interner.new.types.nodes) × (sig_of interner.new.types.nodes f ≡ sig_of_fn k (fn_of d.now))) }
{
    let params = places_of(alloc, interner, &d.params)?;
    let result = interner.intern(&written_of(&d.body).ty)?;
    let acts = match &d.body {
        Body::Pure(_, _) => false,
        Body::Action(_, _) => true,
    };
    Ok(Fun {
        text: d.name.text.copy(alloc)?,
        acts,
        params,
        result,
        place: k,
    })
}

/// The heads of the definitions, in order.
pub fn heads_of(alloc: Global, ds: &Items<Def>) -> Result<Heads, NoMemory>
    ensures { IfOk result (λ h. sigs_of h.types.nodes h.sigs ≡ sigs_from 0 (map fn_of ds.now)) }
{
    let mut interner = Interner::new(alloc);
    let mut sigs = Items::new(alloc);
    'defs: for (i, d) in ds.as_slice().iter().enumerate() {
        sigs.add(fun_of(alloc, &mut interner, i, d)?)?;
    }
    Ok(Heads {
        types: interner.into_types(),
        sigs,
    })
}

fn is_unit(types: &TypeTable, place: usize) -> bool
    ensures { result ≡ is_unit (known types.now.nodes place) }
{
    matches!(
        kind_in(types, &TypeTerm::Known(place)),
        TypeKind::Base(Base::Unit)
    )
}

fn has_no_params(_types: &TypeTable, f: &Fun) -> bool
    ensures { result ≡ is_none (place_types _types.now.nodes f.now.params) }
{
    match f.params.as_slice().split_first() {
        None => true,
        Some(_) => false,
    }
}

fn is_main(types: &TypeTable, f: &Fun) -> bool
    ensures { result ≡ main_by (Some (sig_of types.now.nodes f.now)) }
{
    f.acts && has_no_params(types, f) && is_unit(types, f.result)
}

/// Whether there is a `main :: IO ()` without parameters.
#[tactic(auto, using(crate::proofs::Indexes::find_sigs))]
pub fn has_main(alloc: Global, funs: &Funs) -> Result<bool, NoMemory>
    ensures { IfOk result (λ b. b ≡ main_by (find (sigs_of funs.now.types.nodes funs.now.sigs) (codes "main"))) }
{
    let main = Txt::of(alloc, "main")?;
    match funs.find(&main) {
        None => Ok(false),
        Some(f) => Ok(is_main(&funs.types, f)),
    }
}
