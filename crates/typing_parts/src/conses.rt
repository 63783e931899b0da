ghost use Rattle.std.specs.Prelude.{◌≡◌, ◌+◌, IfOk, length};
ghost use Rattle.rules_expansion.specs.trees.Trees.{list_links_of, cons_form};
ghost use Rattle.rules_typing.specs.Typing.{row_binary};
ghost use Rattle.typing_judge.specs.Judging.{folded, own, with2};
ghost use Rattle.typing_parts.specs.Views.{opt_ty, opts_of};
ghost use Rattle.typing_parts.specs.JudgedAs.{JudgedAs};

use crate::checker::Checker;
use hs_base::tree::forms::BinaryForm;
use hs_base::tree::{ConsOp, ListLink};
use hs_base::{NoMemory, Pos};
use hs_items::Items;
use std::alloc::Global;
use typing_table::table::TypeTable;
use typing_table::ty::TypeTerm;

/// `:` or `++` as a form.
fn joined(op: ConsOp) -> BinaryForm
    ensures { result ≡ cons_form op }
{
    match op {
        ConsOp::Cons => BinaryForm::Cons,
        ConsOp::Append => BinaryForm::Append,
    }
}

fn copied(alloc: Global, t: &Option<TypeTerm>) -> Result<Option<TypeTerm>, NoMemory>
    ensures { IfOk result (λ r. r ≡ t.now) }
{
    match t {
        None => Ok(None),
        Some(t) => Ok(Some(t.copy(alloc)?)),
    }
}

impl Checker {
    fn close_link(
        &mut self,
        types: &TypeTable,
        p: Pos,
        o: BinaryForm,
        a: &Option<TypeTerm>,
        b: Option<TypeTerm>,
    ) -> Result<Option<TypeTerm>, NoMemory>
        ensures { JudgedAs types.now self.old self.new result (with2 (opt_ty types.now.nodes a.now) (opt_ty types.now.nodes b) (λ u v. own p (row_binary o u v))) }
    {
        match a {
            None => Ok(None),
            Some(a) => match b {
                None => Ok(None),
                Some(b) => self.row_binary(types, p, o, a, &b),
            },
        }
    }

    /// The nodes of `:` and `++` from the right, over their operands' types.
    pub fn close_conses(
        &mut self,
        types: &TypeTable,
        ts: &Items<Option<TypeTerm>>,
        ks: &Items<ListLink>,
    ) -> Result<Option<TypeTerm>, NoMemory>
        requires { length ts.now ≡ 1 + length ks.now }
        ensures { JudgedAs types.now self.old self.new result (folded (opts_of types.now.nodes ts.now) (list_links_of ks.now)) }
    {
        let ts = ts.as_slice();
        let ks = ks.as_slice();
        let mut t = copied(self.alloc, &ts[ks.len()])?;
        'links: for i in (0..ks.len()).rev() {
            let k = &ks[i];
            t = self.close_link(types, k.pos, joined(k.op), &ts[i], t)?;
        }
        Ok(t)
    }
}
