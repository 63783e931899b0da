//! Actions, blocks and arms.
use crate::defs::Defs;
use crate::emitter::ActEmitter;
use crate::filling::parts;
use crate::pending::{Pending, back_to};
use hs_base::tree::forms::MaskingAction;
use hs_base::{Action, Block, BlockArms, Expr, NoMemory, Stmt, Txt};
use hs_items::Items;
use hs_nodes::names::{bind, off};
use rules_code::{Act, ActId, ExprId, Primitive};
use rules_expansion::{
    BlockRow, Derived, UnaryRow, bare_row, binary_row, block_row, guard_row, unary_row,
};
use std::alloc::Global;

#[tactic(auto, using(rules_expansion::proofs::trees_lemmas::EquationsOfActions::act_rules))]
impl ActEmitter {
    ghost use Rattle.std.specs.Prelude.{IfOk, ◌∷◌};
    ghost use Rattle.rules_expansion.specs.Names.{Written};
    ghost use Rattle.rules_expansion.specs.Expansion.{block_core, masking_core};
    ghost use Rattle.rules_expansion.specs.trees.Programs.{act_of, bl_of, act_arms_of};
    ghost use Rattle.rules_code.specs.Slots.{Sx, slot_of};
    ghost use Rattle.rules_code.specs.CodeTrees.{Sa, a_if, a_fork, a_catch, a_restore, slot_or_end};
    ghost use Rattle.hs_core.specs.Defining.{Knows};
    ghost use Rattle.hs_core.specs.Emits.{Emits, DoneIn, StandsIn};
    ghost use Rattle.hs_core.specs.Opening.{core_tree, action_tree, block_tree, arms_tree, Opens, OpensAll};

    /// Adds the nodes of an action, and answers the number of its last.
    #[cycle(expand)]
    pub fn action(&mut self, alloc: Global, defs: &Defs, a: &Action) -> Result<ActId, NoMemory>
        ensures { IfOk result (λ id. Emits (Knows self.old.emitter.nodes defs.now) self.old self.new id (λ s. action_tree defs.now s (act_of a.now))) }
    {
        match a {
            Action::Bare(word, _) => self.primitive(alloc, defs, bare_row(*word)),
            Action::Unary(word, _, e) => match unary_row(*word) {
                UnaryRow::Return => self.give(alloc, defs, e),
                UnaryRow::Perform(primitive) => self.primitive_one(alloc, defs, primitive, e),
                UnaryRow::Kill => self.kill_thread(alloc, defs, e),
                UnaryRow::Derived(form) => self.derived(alloc, defs, form, parts(Some(e), None), a),
            },
            Action::Binary(word, _, e, f) => {
                self.primitive_two(alloc, defs, binary_row(*word), e, f)
            }
            Action::ThrowIo(_, _, e) => self.throw(alloc, defs, e),
            Action::NewEmptyMVar(_, _) => self.primitive(alloc, defs, Primitive::NewEmptyMVar),
            Action::Call(f, es) => self.call(alloc, defs, &f.text, es),
            Action::If(_, e, b, d) => {
                let t = self.expr(alloc, defs, e)?;
                let i = self.block(alloc, defs, b)?;
                self.if_form(alloc, defs, t, i, d)
            }
            Action::Case(_, e, arms) => {
                let t = self.expr(alloc, defs, e)?;
                let two = arms.get();
                let id = self.arms(alloc, defs, t, two)?;
                Ok(id)
            }
            Action::ModifyMVar(_, e, x, _) => {
                let own = parts(Some(e), Some(&x.text));
                self.derived(alloc, defs, Derived::ModifyMVar, own, a)
            }
            Action::Scoped(word, _, b) => match block_row(*word) {
                BlockRow::Fork => self.fork_form(alloc, defs, b),
                BlockRow::Derived(form) => self.derived(alloc, defs, form, parts(None, None), a),
            },
            Action::Masking(word, _, x, b) => self.masking(alloc, defs, *word, &x.text, b),
            Action::Restore(_, x, b) => self.restore_form(alloc, defs, &x.text, b),
            Action::Catch(_, b, x, d) => {
                let i = self.block(alloc, defs, b)?;
                self.catch_form(alloc, defs, i, &x.text, d)
            }
            Action::Guard(word, _, _, _) => {
                self.derived(alloc, defs, guard_row(*word), parts(None, None), a)
            }
            Action::Bracket(_, _, x, _, _) => {
                self.derived(alloc, defs, Derived::Bracket, parts(None, Some(&x.text)), a)
            }
            Action::Timeout(_, e, _) => {
                self.derived(alloc, defs, Derived::Timeout, parts(Some(e), None), a)
            }
            Action::WithAsync(_, _, x, _) => {
                let own = parts(None, Some(&x.text));
                self.derived(alloc, defs, Derived::WithAsync, own, a)
            }
        }
    }

    /// `if`, after its condition and its first block.
    #[cycle(expand)]
    fn if_form(
        &mut self,
        alloc: Global,
        defs: &Defs,
        t: ExprId,
        i: ActId,
        d: &Block,
    ) -> Result<ActId, NoMemory>
        ensures { (u : Sx) (A : Sa) → IfOk result (λ id. Emits (Knows self.old.emitter.nodes defs.now × StandsIn self.old t u × DoneIn self.old i A) self.old self.new id (λ s. a_if u A (block_tree defs.now s (bl_of d.now)))) }
    {
        let j = self.block(alloc, defs, d)?;
        let id = self.act(Act::If(t, i, j))?;
        Ok(id)
    }

    /// `catch`, after what it guards.
    #[cycle(expand)]
    fn catch_form(
        &mut self,
        alloc: Global,
        defs: &Defs,
        i: ActId,
        x: &Txt,
        d: &Block,
    ) -> Result<ActId, NoMemory>
        ensures { (A : Sa) → IfOk result (λ id. Emits (Knows self.old.emitter.nodes defs.now × DoneIn self.old i A) self.old self.new id (λ s. a_catch A (block_tree defs.now (Written x.now ∷ s) (bl_of d.now)))) }
    {
        let j = self.named(alloc, defs, x, d)?;
        let id = self.act(Act::Catch(i, j))?;
        Ok(id)
    }

    /// Adds the nodes of a block, and answers the number of its last.
    #[cycle(expand)]
    pub fn block(&mut self, alloc: Global, defs: &Defs, b: &Block) -> Result<ActId, NoMemory>
        ensures { IfOk result (λ id. Emits (Knows self.old.emitter.nodes defs.now) self.old self.new id (λ s. block_tree defs.now s (bl_of b.now))) }
    {
        let count = self.emitter.scope.len();
        let pending = self.stmts(alloc, defs, &b.stmts)?;
        let end = b.last.get();
        let last = self.action(alloc, defs, end)?;
        back_to(&mut self.emitter.scope, count);
        let id = self.closed(pending, last)?;
        Ok(id)
    }

    /// Statements in a row, whose names stay in the scope.
    #[cycle(expand)]
    fn stmts(
        &mut self,
        alloc: Global,
        defs: &Defs,
        stmts: &Items<Stmt>,
    ) -> Result<Items<Pending>, NoMemory>
        ensures { IfOk result (λ qs. OpensAll defs.now self.old self.new qs stmts.now) }
    {
        let mut pending = Items::new(alloc);
        'each: for stmt in stmts.as_slice() {
            let one = self.stmt(alloc, defs, stmt)?;
            pending.add(one)?;
        }
        Ok(pending)
    }

    /// A statement. The name that it binds stays in the scope.
    #[cycle(expand)]
    fn stmt(&mut self, alloc: Global, defs: &Defs, stmt: &Stmt) -> Result<Pending, NoMemory>
        ensures { IfOk result (λ q. Opens defs.now self.old self.new q stmt.now) }
    {
        match stmt {
            Stmt::Bind(x, a) => {
                let i = self.action(alloc, defs, a)?;
                bind(&mut self.emitter.scope, alloc, &x.text)?;
                Ok(Pending::Bind(i))
            }
            Stmt::Let(x, e) => {
                let i = self.expr(alloc, defs, e)?;
                bind(&mut self.emitter.scope, alloc, &x.text)?;
                Ok(Pending::Let(i))
            }
            Stmt::Do(a) => {
                let i = self.action(alloc, defs, a)?;
                Ok(Pending::Then(i))
            }
        }
    }

    /// A block under a name of the script.
    #[cycle(expand)]
    fn named(&mut self, alloc: Global, defs: &Defs, x: &Txt, b: &Block) -> Result<ActId, NoMemory>
        ensures { IfOk result (λ id. Emits (Knows self.old.emitter.nodes defs.now) self.old self.new id (λ s. block_tree defs.now (Written x.now ∷ s) (bl_of b.now))) }
    {
        bind(&mut self.emitter.scope, alloc, x)?;
        let id = self.block(alloc, defs, b)?;
        off(&mut self.emitter.scope);
        Ok(id)
    }

    /// A block under two names of the script.
    #[cycle(expand)]
    fn named_two(
        &mut self,
        alloc: Global,
        defs: &Defs,
        x: &Txt,
        y: &Txt,
        b: &Block,
    ) -> Result<ActId, NoMemory>
        ensures { IfOk result (λ id. Emits (Knows self.old.emitter.nodes defs.now) self.old self.new id (λ s. block_tree defs.now (Written y.now ∷ Written x.now ∷ s) (bl_of b.now))) }
    {
        bind(&mut self.emitter.scope, alloc, x)?;
        let id = self.named(alloc, defs, y, b)?;
        off(&mut self.emitter.scope);
        Ok(id)
    }

    /// The arms of a `case`, after what it looks at.
    #[cycle(expand)]
    fn arms(
        &mut self,
        alloc: Global,
        defs: &Defs,
        t: ExprId,
        arms: &BlockArms,
    ) -> Result<ActId, NoMemory>
        ensures { (u : Sx) → IfOk result (λ id. Emits (Knows self.old.emitter.nodes defs.now × StandsIn self.old t u) self.old self.new id (λ s. arms_tree defs.now s u (act_arms_of arms.now))) }
    {
        match arms {
            BlockArms::OfMaybe(a, x, b) => {
                let i = self.block(alloc, defs, a)?;
                let j = self.named(alloc, defs, &x.text, b)?;
                let id = self.act(Act::CaseMaybe(t, i, j))?;
                Ok(id)
            }
            BlockArms::OfEither(x, a, y, b) => {
                let i = self.named(alloc, defs, &x.text, a)?;
                let j = self.named(alloc, defs, &y.text, b)?;
                let id = self.act(Act::CaseEither(t, i, j))?;
                Ok(id)
            }
            BlockArms::OfList(a, x, y, b) => {
                let i = self.block(alloc, defs, a)?;
                let j = self.named_two(alloc, defs, &x.text, &y.text, b)?;
                let id = self.act(Act::CaseList(t, i, j))?;
                Ok(id)
            }
            BlockArms::OfPair(x, y, a) => {
                let i = self.named_two(alloc, defs, &x.text, &y.text, a)?;
                let id = self.act(Act::CasePair(t, i))?;
                Ok(id)
            }
        }
    }

    /// `forkIO`
    #[cycle(expand)]
    fn fork_form(&mut self, alloc: Global, defs: &Defs, b: &Block) -> Result<ActId, NoMemory>
        ensures { IfOk result (λ id. Emits (Knows self.old.emitter.nodes defs.now) self.old self.new id (λ s. a_fork (block_tree defs.now s (bl_of b.now)))) }
    {
        let i = self.block(alloc, defs, b)?;
        let id = self.act(Act::Fork(i))?;
        Ok(id)
    }

    /// A word, a masking name and the block in which it stands.
    #[cycle(expand)]
    fn masking(
        &mut self,
        alloc: Global,
        defs: &Defs,
        word: MaskingAction,
        x: &Txt,
        b: &Block,
    ) -> Result<ActId, NoMemory>
        ensures { IfOk result (λ id. Emits (Knows self.old.emitter.nodes defs.now) self.old self.new id (λ s. core_tree defs.now s (masking_core word (Written x.now) (block_core (bl_of b.now))))) }
    {
        let i = self.named(alloc, defs, x, b)?;
        match word {
            MaskingAction::ForkIoWithUnmask => {
                let id = self.act(Act::ForkUnmask(i))?;
                Ok(id)
            }
            MaskingAction::Mask => {
                let id = self.act(Act::Mask(i))?;
                Ok(id)
            }
            MaskingAction::UninterruptibleMask => {
                let id = self.act(Act::UninterruptibleMask(i))?;
                Ok(id)
            }
        }
    }

    /// `restore x A`
    #[cycle(expand)]
    fn restore_form(
        &mut self,
        alloc: Global,
        defs: &Defs,
        x: &Txt,
        b: &Block,
    ) -> Result<ActId, NoMemory>
        ensures { IfOk result (λ id. Emits (Knows self.old.emitter.nodes defs.now) self.old self.new id (λ s. a_restore (slot_or_end (slot_of s (Written x.now)) s) (block_tree defs.now s (bl_of b.now)))) }
    {
        let i = self.block(alloc, defs, b)?;
        let id = self.restore(x, i)?;
        Ok(id)
    }
}
