ghost use Rattle.std.specs.Prelude.{◌≡◌, IfOk};
ghost use Rattle.typing_table.specs.Meaning.{known};
ghost use Rattle.rules_typing.specs.Typing.{meant, meant_act, meant_args, no_mask, shown_count};
ghost use Rattle.typing_judge.specs.Judging.{called};
ghost use Rattle.typing_parts.specs.Views.{opt_ty, opt_tys, place_types};
ghost use Rattle.typing_parts.specs.Contexts.{ctx_of};
ghost use Rattle.typing_parts.specs.Judged.{Judged, Unmasked, names};
ghost use Rattle.typing_parts.specs.JudgedAs.{JudgedAs};

use crate::checker::Checker;
use crate::entry::{Fun, Sorted};
use crate::first::Broken;
use crate::funs::Funs;
use hs_base::tree::Name;
use hs_base::{NoMemory, Pos};
use hs_items::Items;
use typing_table::table::TypeTable;
use typing_table::ty::TypeTerm;

/// A count of arguments as it is shown.
fn shown_count(n: usize) -> u32
    ensures { result ≡ shown_count n }
{
    if n < 4294967295 { n as u32 } else { 4294967295 }
}

#[tactic(auto, using(typing_table::proofs::Equations::type_rules, crate::proofs::Noted::need_rules, crate::proofs::Tables::table_rules, crate::proofs::Indexes::find_sigs))]
impl Checker {
    /// A name in an expression, with its arguments' types.
    pub fn close_call(
        &mut self,
        funs: &Funs,
        x: &Name,
        n: usize,
        ts: Option<Items<TypeTerm>>,
    ) -> Result<Option<TypeTerm>, NoMemory>
        ensures { IfOk result (λ t. Judged funs.now.types.nodes self.old self.new (opt_ty funs.now.types.nodes t) (called x.now.pos (meant (ctx_of funs.now) (names funs.now.types.nodes self.old) x.now n) (opt_tys funs.now.types.nodes ts))) }
    {
        match self.scope.look(&x.text) {
            Some(Sorted::Masking) => {
                self.first.note(&funs.types, Broken::Kind(x.pos));
                Ok(None)
            }
            Some(Sorted::Value(t)) => {
                if n != 0 {
                    self.first
                        .note(&funs.types, Broken::Arity(x.pos, 0, shown_count(n)));
                    return Ok(None);
                }
                match ts {
                    None => Ok(None),
                    Some(_) => Ok(Some(t.copy(self.alloc)?)),
                }
            }
            None => match funs.find(&x.text) {
                None => {
                    self.first.note(&funs.types, Broken::Unknown(x.pos));
                    Ok(None)
                }
                Some(f) => {
                    if f.acts {
                        self.first.note(&funs.types, Broken::Kind(x.pos));
                        return Ok(None);
                    }
                    if f.place >= funs.here {
                        self.first.note(&funs.types, Broken::Forward(x.pos));
                        return Ok(None);
                    }
                    self.close_args(&funs.types, x.pos, n, f, ts)
                }
            },
        }
    }

    fn close_args(
        &mut self,
        types: &TypeTable,
        p: Pos,
        n: usize,
        f: &Fun,
        ts: Option<Items<TypeTerm>>,
    ) -> Result<Option<TypeTerm>, NoMemory>
        ensures { JudgedAs types.now self.old self.new result (called p (meant_args p n (place_types types.now.nodes f.now.params) (known types.now.nodes f.now.result)) (opt_tys types.now.nodes ts)) }
    {
        if f.params.len() != n {
            self.first.note(
                types,
                Broken::Arity(p, shown_count(f.params.len()), shown_count(n)),
            );
            return Ok(None);
        }
        match ts {
            None => Ok(None),
            Some(us) => {
                if self.each_is(types, p, f.params.as_slice(), us.as_slice())? {
                    Ok(Some(TypeTerm::Known(f.result)))
                } else {
                    Ok(None)
                }
            }
        }
    }

    /// A name in an action, with its arguments' types.
    pub fn close_act_call(
        &mut self,
        funs: &Funs,
        x: &Name,
        n: usize,
        ts: Option<Items<TypeTerm>>,
    ) -> Result<Option<TypeTerm>, NoMemory>
        ensures { IfOk result (λ t. Judged funs.now.types.nodes self.old self.new (opt_ty funs.now.types.nodes t) (called x.now.pos (meant_act (ctx_of funs.now) (names funs.now.types.nodes self.old) x.now n) (opt_tys funs.now.types.nodes ts))) }
    {
        match self.scope.look(&x.text) {
            Some(_) => {
                self.first.note(&funs.types, Broken::Kind(x.pos));
                Ok(None)
            }
            None => match funs.find(&x.text) {
                None => {
                    self.first.note(&funs.types, Broken::Unknown(x.pos));
                    Ok(None)
                }
                Some(f) => {
                    if !f.acts {
                        self.first.note(&funs.types, Broken::Kind(x.pos));
                        return Ok(None);
                    }
                    let t = self.close_args(&funs.types, x.pos, n, f, ts)?;
                    Ok(t)
                }
            },
        }
    }

    /// Notes where a name after `restore` is no masking name.
    pub fn check_mask(&mut self, funs: &Funs, x: &Name) -> bool
        ensures { Unmasked funs.now.types.nodes self.old self.new result (no_mask (ctx_of funs.now) (names funs.now.types.nodes self.old) x.now) }
    {
        match self.scope.look(&x.text) {
            Some(Sorted::Masking) => true,
            Some(Sorted::Value(_)) => {
                self.first.note(&funs.types, Broken::Kind(x.pos));
                false
            }
            None => match funs.find(&x.text) {
                None => {
                    self.first.note(&funs.types, Broken::Unknown(x.pos));
                    false
                }
                Some(_) => {
                    self.first.note(&funs.types, Broken::Kind(x.pos));
                    false
                }
            },
        }
    }
}
