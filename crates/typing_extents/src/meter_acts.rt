ghost use Rattle.std.specs.Prelude.{◌∷◌, IfOk};
ghost use Rattle.rules_expansion.specs.trees.Trees.{ex_of, exs_of};
ghost use Rattle.rules_expansion.specs.trees.Programs.{act_of, bl_of, act_arms_of, stmt_of};
ghost use Rattle.rules_typing.specs.Typing.{masked};
ghost use Rattle.rules_typing.specs.TypingSizes.{extent, worse, worst_act, worst_bl, worst_arms, worst_exs};
ghost use Rattle.typing_parts.specs.Views.{sigs_of};
ghost use Rattle.typing_extents.specs.Measuring.{Worsens, MeasuredAs};

use crate::meter::{Extent, Meter, nothing, worse};
use hs_base::NoMemory;
use hs_base::tree::{Action, Block, BlockArms, Expr, Name, Stmt};
use hs_items::Items;
use std::alloc::Global;
use typing_parts::funs::Funs;

impl Meter {
    /// The greatest of some expressions, each for itself.
    fn each(&mut self, alloc: Global, funs: &Funs, es: &Items<Expr>) -> Result<Extent, NoMemory>
        ensures { MeasuredAs funs.now self.old self.new result (λ gs xs s. worst_exs gs xs s (exs_of es.now)) }
    {
        let mut x = nothing();
        'each: for e in es.as_slice() {
            let y = self.extent(alloc, funs, e)?;
            x = worse(x, y);
        }
        Ok(x)
    }

    /// The greater of two expressions, each for itself.
    fn both(&mut self, alloc: Global, funs: &Funs, e: &Expr, f: &Expr) -> Result<Extent, NoMemory>
        ensures { MeasuredAs funs.now self.old self.new result (λ gs xs s. worse (extent gs xs s (ex_of e.now)) (extent gs xs s (ex_of f.now))) }
    {
        let x = self.extent(alloc, funs, e)?;
        let y = self.extent(alloc, funs, f)?;
        Ok(worse(x, y))
    }

    /// The greatest expression of an action.
    #[cycle(worst)]
    fn action(&mut self, alloc: Global, funs: &Funs, a: &Action) -> Result<Extent, NoMemory>
        ensures { MeasuredAs funs.now self.old self.new result (λ gs xs s. worst_act gs xs s (act_of a.now)) }
    {
        match a {
            Action::Bare(_, _) => Ok(nothing()),
            Action::Unary(_, _, e) => self.extent(alloc, funs, e),
            Action::Binary(_, _, e, f) => self.both(alloc, funs, e, f),
            Action::ThrowIo(_, _, e) => self.extent(alloc, funs, e),
            Action::NewEmptyMVar(_, _) => Ok(nothing()),
            Action::Call(_, es) => self.each(alloc, funs, es),
            Action::If(_, e, b, d) => {
                let x = self.extent(alloc, funs, e)?;
                let y = self.block(alloc, funs, b)?;
                let z = self.block(alloc, funs, d)?;
                Ok(worse(worse(x, y), z))
            }
            Action::Case(_, e, arms) => {
                let x = self.extent(alloc, funs, e)?;
                let y = self.act_arms(alloc, funs, arms.get())?;
                Ok(worse(x, y))
            }
            Action::ModifyMVar(_, e, v, b) => {
                let x = self.extent(alloc, funs, e)?;
                let y = self.under_block(alloc, funs, v, b)?;
                Ok(worse(x, y))
            }
            Action::Scoped(_, _, b) => self.block(alloc, funs, b),
            Action::Masking(_, _, v, b) => self.under_block(alloc, funs, v, b),
            Action::Restore(_, _, b) => self.block(alloc, funs, b),
            Action::Catch(_, b, v, d) => {
                let x = self.block(alloc, funs, b)?;
                let y = self.under_block(alloc, funs, v, d)?;
                Ok(worse(x, y))
            }
            Action::Guard(_, _, b, d) => {
                let x = self.block(alloc, funs, b)?;
                let y = self.block(alloc, funs, d)?;
                Ok(worse(x, y))
            }
            Action::Bracket(_, b, v, d, h) => {
                let x = self.block(alloc, funs, b)?;
                let y = self.under_block(alloc, funs, v, d)?;
                let z = self.under_block(alloc, funs, v, h)?;
                Ok(worse(worse(x, y), z))
            }
            Action::Timeout(_, e, b) => {
                let x = self.extent(alloc, funs, e)?;
                let y = self.block(alloc, funs, b)?;
                Ok(worse(x, y))
            }
            Action::WithAsync(_, b, v, d) => {
                let x = self.block(alloc, funs, b)?;
                let y = self.under_block(alloc, funs, v, d)?;
                Ok(worse(x, y))
            }
        }
    }

    #[cycle(worst)]
    #[tactic(auto, using(rules_expansion::proofs::trees_lemmas::EquationsOfActions::act_arms_rules))]
    fn act_arms(&mut self, alloc: Global, funs: &Funs, arms: &BlockArms) -> Result<Extent, NoMemory>
        ensures { MeasuredAs funs.now self.old self.new result (λ gs xs s. worst_arms gs xs s (act_arms_of arms.now)) }
    {
        match arms {
            BlockArms::OfMaybe(a, x, b) => {
                let y = self.block(alloc, funs, a)?;
                let z = self.under_block(alloc, funs, x, b)?;
                Ok(worse(y, z))
            }
            BlockArms::OfEither(v, a, w, b) => {
                let y = self.under_block(alloc, funs, v, a)?;
                let z = self.under_block(alloc, funs, w, b)?;
                Ok(worse(y, z))
            }
            BlockArms::OfList(a, v, w, b) => {
                let y = self.block(alloc, funs, a)?;
                let z = self.under_two_block(alloc, funs, v, w, b)?;
                Ok(worse(y, z))
            }
            BlockArms::OfPair(v, w, a) => {
                let y = self.under_two_block(alloc, funs, v, w, a)?;
                Ok(y)
            }
        }
    }

    #[cycle(worst)]
    fn under_block(
        &mut self,
        alloc: Global,
        funs: &Funs,
        v: &Name,
        b: &Block,
    ) -> Result<Extent, NoMemory>
        ensures { MeasuredAs funs.now self.old self.new result (λ gs xs s. worst_bl gs xs (masked v.now ∷ s) (bl_of b.now)) }
    {
        self.bind(alloc, v)?;
        let x = self.block(alloc, funs, b)?;
        self.unbind();
        Ok(x)
    }

    #[cycle(worst)]
    fn under_two_block(
        &mut self,
        alloc: Global,
        funs: &Funs,
        v: &Name,
        w: &Name,
        b: &Block,
    ) -> Result<Extent, NoMemory>
        ensures { MeasuredAs funs.now self.old self.new result (λ gs xs s. worst_bl gs xs (masked w.now ∷ masked v.now ∷ s) (bl_of b.now)) }
    {
        self.bind(alloc, v)?;
        let x = self.under_block(alloc, funs, w, b)?;
        self.unbind();
        Ok(x)
    }

    /// The greatest expression of a statement; its name is bound.
    #[cycle(worst)]
    #[tactic(auto, using(rules_expansion::proofs::trees_lemmas::EquationsOfActions::stmt_rules))]
    fn stmt(&mut self, alloc: Global, funs: &Funs, st: &Stmt) -> Result<Extent, NoMemory>
        ensures { IfOk result (λ x. Worsens (sigs_of funs.now.types.nodes funs.now.sigs) self.old self.new x (stmt_of st.now)) }
    {
        match st {
            Stmt::Do(a) => {
                let x = self.action(alloc, funs, a)?;
                Ok(x)
            }
            Stmt::Bind(v, a) => {
                let x = self.action(alloc, funs, a)?;
                self.bind(alloc, v)?;
                Ok(x)
            }
            Stmt::Let(v, e) => {
                let x = self.extent(alloc, funs, e)?;
                self.bind(alloc, v)?;
                Ok(x)
            }
        }
    }

    /// The greatest expression of a block.
    #[cycle(worst)]
    #[tactic(auto, using(rules_expansion::proofs::trees_lemmas::EquationsOfActions::bl_is))]
    pub fn block(&mut self, alloc: Global, funs: &Funs, b: &Block) -> Result<Extent, NoMemory>
        ensures { MeasuredAs funs.now self.old self.new result (λ gs xs s. worst_bl gs xs s (bl_of b.now)) }
    {
        let mark = self.mark();
        let mut x = nothing();
        'stmts: for st in b.stmts.as_slice() {
            let y = self.stmt(alloc, funs, st)?;
            x = worse(x, y);
        }
        let y = self.action(alloc, funs, b.last.get())?;
        self.back_to(mark);
        Ok(worse(x, y))
    }
}
