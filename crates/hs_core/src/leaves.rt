//! Actions of a script without blocks.
use crate::defs::Defs;
use crate::emitter::ActEmitter;
use hs_base::{Expr, NoMemory, Txt};
use hs_items::Items;
use rules_code::{Act, ActId, ExprId, Primitive};
use std::alloc::Global;

impl ActEmitter {
    ghost use Rattle.std.specs.Prelude.{IfOk, []};
    ghost use Rattle.rules_expansion.specs.trees.Trees.{ex_of, exs_of};
    ghost use Rattle.rules_expansion.specs.Core.{Killed};
    ghost use Rattle.rules_expansion.specs.declared.primitive.Primitive.TheVariants.{ThrowTo};
    ghost use Rattle.rules_code.specs.Slots.{slotted, slotted_all, s_none, s_more};
    ghost use Rattle.rules_code.specs.CodeTrees.{a_return, a_throw, a_call, a_perform, place_among, slotted_core_ex};
    ghost use Rattle.hs_core.specs.Defining.{Knows, roots, functions};
    ghost use Rattle.hs_core.specs.Emits.{Emits, EmitsAll};

    /// A primitive of nothing.
    pub fn primitive(
        &mut self,
        alloc: Global,
        _defs: &Defs,
        primitive: Primitive,
    ) -> Result<ActId, NoMemory>
        ensures { IfOk result (λ id. Emits (Knows self.old.emitter.nodes _defs.now) self.old self.new id (λ s. a_perform primitive s_none)) }
    {
        let id = self.perform_none(alloc, primitive)?;
        Ok(id)
    }

    /// A primitive of an expression.
    pub fn primitive_one(
        &mut self,
        alloc: Global,
        defs: &Defs,
        primitive: Primitive,
        e: &Expr,
    ) -> Result<ActId, NoMemory>
        ensures { IfOk result (λ id. Emits (Knows self.old.emitter.nodes defs.now) self.old self.new id (λ s. a_perform primitive (s_more (slotted (roots defs.now) s (ex_of e.now)) s_none))) }
    {
        let i = self.expr(alloc, defs, e)?;
        let id = self.perform_one(alloc, primitive, i)?;
        Ok(id)
    }

    /// A primitive of two expressions.
    pub fn primitive_two(
        &mut self,
        alloc: Global,
        defs: &Defs,
        primitive: Primitive,
        e: &Expr,
        f: &Expr,
    ) -> Result<ActId, NoMemory>
        ensures { IfOk result (λ id. Emits (Knows self.old.emitter.nodes defs.now) self.old self.new id (λ s. a_perform primitive (s_more (slotted (roots defs.now) s (ex_of e.now)) (s_more (slotted (roots defs.now) s (ex_of f.now)) s_none)))) }
    {
        let i = self.expr(alloc, defs, e)?;
        let j = self.expr(alloc, defs, f)?;
        let id = self.perform_two(alloc, primitive, i, j)?;
        Ok(id)
    }

    /// `return e`
    pub fn give(&mut self, alloc: Global, defs: &Defs, e: &Expr) -> Result<ActId, NoMemory>
        ensures { IfOk result (λ id. Emits (Knows self.old.emitter.nodes defs.now) self.old self.new id (λ s. a_return (slotted (roots defs.now) s (ex_of e.now)))) }
    {
        let i = self.expr(alloc, defs, e)?;
        let id = self.act(Act::Return(i))?;
        Ok(id)
    }

    /// `throwIO e`
    pub fn throw(&mut self, alloc: Global, defs: &Defs, e: &Expr) -> Result<ActId, NoMemory>
        ensures { IfOk result (λ id. Emits (Knows self.old.emitter.nodes defs.now) self.old self.new id (λ s. a_throw (slotted (roots defs.now) s (ex_of e.now)))) }
    {
        let i = self.expr(alloc, defs, e)?;
        let id = self.act(Act::Throw(i))?;
        Ok(id)
    }

    /// `killThread e`
    pub fn kill_thread(&mut self, alloc: Global, defs: &Defs, e: &Expr) -> Result<ActId, NoMemory>
        ensures { IfOk result (λ id. Emits (Knows self.old.emitter.nodes defs.now) self.old self.new id (λ s. a_perform ThrowTo (s_more (slotted (roots defs.now) s (ex_of e.now)) (s_more (slotted_core_ex [] s Killed) s_none)))) }
    {
        let i = self.expr(alloc, defs, e)?;
        let id = self.kill(alloc, i)?;
        Ok(id)
    }

    /// The nodes of expressions in a row.
    fn exprs(
        &mut self,
        alloc: Global,
        defs: &Defs,
        es: &Items<Expr>,
    ) -> Result<Items<ExprId>, NoMemory>
        ensures { IfOk result (λ ids. EmitsAll (Knows self.old.emitter.nodes defs.now) self.old self.new ids (λ s. slotted_all (roots defs.now) s (exs_of es.now))) }
    {
        let ids = self.emitter.all(alloc, &defs.places, es)?;
        Ok(ids)
    }

    /// `f e ..`
    pub fn call(
        &mut self,
        alloc: Global,
        defs: &Defs,
        f: &Txt,
        es: &Items<Expr>,
    ) -> Result<ActId, NoMemory>
        ensures { IfOk result (λ id. Emits (Knows self.old.emitter.nodes defs.now) self.old self.new id (λ s. a_call (place_among (functions defs.now) f.now) (slotted_all (roots defs.now) s (exs_of es.now)))) }
    {
        let ids = self.exprs(alloc, defs, es)?;
        let number = defs.number(f)?;
        let id = self.act(Act::Call(number, ids))?;
        Ok(id)
    }
}
