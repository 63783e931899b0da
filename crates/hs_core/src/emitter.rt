//! The nodes of a code so far, and the single steps that add to them.
use crate::defs::Defs;
use hs_base::tree::forms::{BinaryForm, EmptyForm, SideForm, UnaryForm};
use hs_base::{Exn, Expr, NoMemory, Txt};
use hs_items::Items;
use hs_nodes::Emitter;
use rules_code::{Act, ActId, ExprId, Node, Primitive};
use rules_expansion::Hidden;
use std::alloc::Global;

/// The nodes of expressions with the names of the scope, and the nodes of actions.
#[derive(Drop)]
pub struct ActEmitter {
    pub emitter: Emitter,
    pub acts: Items<Act>,
}

impl ActEmitter {
    ghost use Rattle.std.specs.Prelude.{◌≡◌, [], IfOk, pos};
    ghost use Rattle.hs_base.specs.declared.exn.Exn.TheVariants as x;
    ghost use Rattle.hs_base.specs.declared.tree.forms.EmptyForm.TheVariants as n;
    ghost use Rattle.rules_expansion.specs.trees.Trees.{ex_of, number, nothing_more, exception};
    ghost use Rattle.rules_expansion.specs.Names.{Written, Added};
    ghost use Rattle.rules_expansion.specs.Core.{Killed};
    ghost use Rattle.rules_expansion.specs.declared.primitive.Primitive.TheVariants.{ThrowTo};
    ghost use Rattle.rules_code.specs.Slots.{Sx, Sxs, slotted, slot_of, s_literal, s_empty, s_unary, s_side, s_binary, s_none, s_more};
    ghost use Rattle.rules_code.specs.CodeTrees.{Sa, slot_or_end, a_perform, a_restore, slotted_core_ex};
    ghost use Rattle.hs_nodes.specs.Names.{scope_of};
    ghost use Rattle.hs_core.specs.Defining.{Knows, roots};
    ghost use Rattle.hs_core.specs.Emits.{Emits, EmitsEx, Pushed, StandsIn, DoneIn, AllStandIn, Nothing_given};

    /// Adds an action's node.
    pub fn act(&mut self, act: Act) -> Result<ActId, NoMemory>
        ensures { IfOk result (λ id. Pushed self.old self.new id act) }
    {
        let id = ActId(self.acts.len());
        self.acts.add(act)?;
        Ok(id)
    }

    /// Adds the nodes of an expression.
    pub fn expr(&mut self, alloc: Global, defs: &Defs, e: &Expr) -> Result<ExprId, NoMemory>
        ensures { IfOk result (λ id. EmitsEx (Knows self.old.emitter.nodes defs.now) self.old self.new id (λ s. slotted (roots defs.now) s (ex_of e.now))) }
    {
        let id = self.emitter.expr(alloc, &defs.places, e)?;
        Ok(id)
    }

    /// The slot of an added name.
    pub fn slot(&self, h: Hidden) -> usize
        ensures { result ≡ slot_or_end (slot_of (scope_of self.now.emitter.scope) (Added h)) (scope_of self.now.emitter.scope) }
    {
        match self.emitter.added_slot(h) {
            Some(k) => k,
            None => self.emitter.scope.len(),
        }
    }

    /// The slot of a name of the script.
    pub fn written_slot(&self, x: &Txt) -> usize
        ensures { result ≡ slot_or_end (slot_of (scope_of self.now.emitter.scope) (Written x.now)) (scope_of self.now.emitter.scope) }
    {
        match self.emitter.slot(x) {
            Some(k) => k,
            None => self.emitter.scope.len(),
        }
    }

    /// `ThreadKilled`
    pub fn killed(&mut self) -> Result<ExprId, NoMemory>
        ensures { IfOk result (λ id. EmitsEx Nothing_given self.old self.new id (λ s. s_literal (exception x.ThreadKilled))) }
    {
        let id = self.emitter.add(Node::Exn(Exn::ThreadKilled))?;
        Ok(id)
    }

    /// `0`
    pub fn zero(&mut self) -> Result<ExprId, NoMemory>
        ensures { IfOk result (λ id. EmitsEx Nothing_given self.old self.new id (λ s. s_literal (number (pos 0)))) }
    {
        let id = self.emitter.add(Node::Int(0))?;
        Ok(id)
    }

    /// `Nothing`
    pub fn no_value(&mut self) -> Result<ExprId, NoMemory>
        ensures { IfOk result (λ id. EmitsEx Nothing_given self.old self.new id (λ s. s_empty n.Nothing)) }
    {
        let id = self.emitter.add(Node::Empty(EmptyForm::Nothing))?;
        Ok(id)
    }

    /// `()`
    pub fn nil(&mut self) -> Result<ExprId, NoMemory>
        ensures { IfOk result (λ id. EmitsEx Nothing_given self.old self.new id (λ s. s_literal nothing_more)) }
    {
        let id = self.emitter.add(Node::Unit)?;
        Ok(id)
    }

    /// A form with one part.
    pub fn unary_node(&mut self, form: UnaryForm, e: ExprId) -> Result<ExprId, NoMemory>
        ensures { (t : Sx) → IfOk result (λ id. EmitsEx (StandsIn self.old e t) self.old self.new id (λ s. s_unary form t)) }
    {
        let id = self.emitter.add(Node::Unary(form, e))?;
        Ok(id)
    }

    /// `Left` or `Right`.
    pub fn side_node(&mut self, form: SideForm, e: ExprId) -> Result<ExprId, NoMemory>
        ensures { (t : Sx) → IfOk result (λ id. EmitsEx (StandsIn self.old e t) self.old self.new id (λ s. s_side form t)) }
    {
        let id = self.emitter.add(Node::Side(form, e))?;
        Ok(id)
    }

    /// A form with two parts.
    pub fn binary_node(
        &mut self,
        form: BinaryForm,
        e: ExprId,
        f: ExprId,
    ) -> Result<ExprId, NoMemory>
        ensures { (t w : Sx) → IfOk result (λ id. EmitsEx (StandsIn self.old e t × StandsIn self.old f w) self.old self.new id (λ s. s_binary form t w)) }
    {
        let id = self.emitter.add(Node::Binary(form, e, f))?;
        Ok(id)
    }

    /// A primitive.
    pub fn perform(&mut self, primitive: Primitive, es: Items<ExprId>) -> Result<ActId, NoMemory>
        ensures { (ts : Sxs) → IfOk result (λ id. Emits (AllStandIn self.old es ts) self.old self.new id (λ s. a_perform primitive ts)) }
    {
        let id = self.act(Act::Perform(primitive, es))?;
        Ok(id)
    }

    /// A primitive of nothing.
    pub fn perform_none(&mut self, alloc: Global, primitive: Primitive) -> Result<ActId, NoMemory>
        ensures { IfOk result (λ id. Emits Nothing_given self.old self.new id (λ s. a_perform primitive s_none)) }
    {
        let id = self.perform(primitive, Items::new(alloc))?;
        Ok(id)
    }

    /// A primitive of one expression.
    pub fn perform_one(
        &mut self,
        alloc: Global,
        primitive: Primitive,
        e: ExprId,
    ) -> Result<ActId, NoMemory>
        ensures { (t : Sx) → IfOk result (λ id. Emits (StandsIn self.old e t) self.old self.new id (λ s. a_perform primitive (s_more t s_none))) }
    {
        let es = Items::from_slice(alloc, &[e])?;
        let id = self.perform(primitive, es)?;
        Ok(id)
    }

    /// A primitive of two expressions.
    pub fn perform_two(
        &mut self,
        alloc: Global,
        primitive: Primitive,
        e: ExprId,
        f: ExprId,
    ) -> Result<ActId, NoMemory>
        ensures { (t w : Sx) → IfOk result (λ id. Emits (StandsIn self.old e t × StandsIn self.old f w) self.old self.new id (λ s. a_perform primitive (s_more t (s_more w s_none)))) }
    {
        let es = Items::from_slice(alloc, &[e, f])?;
        let id = self.perform(primitive, es)?;
        Ok(id)
    }

    /// `throwTo e ThreadKilled`
    pub fn kill(&mut self, alloc: Global, e: ExprId) -> Result<ActId, NoMemory>
        ensures { (t : Sx) → IfOk result (λ id. Emits (StandsIn self.old e t) self.old self.new id (λ s. a_perform ThrowTo (s_more t (s_more (slotted_core_ex [] s Killed) s_none)))) }
    {
        let killed = self.killed()?;
        let id = self.perform_two(alloc, Primitive::ThrowTo, e, killed)?;
        Ok(id)
    }

    /// `restore x A`
    pub fn restore(&mut self, x: &Txt, a: ActId) -> Result<ActId, NoMemory>
        ensures { (A : Sa) → IfOk result (λ id. Emits (DoneIn self.old a A) self.old self.new id (λ s. a_restore (slot_or_end (slot_of s (Written x.now)) s) A)) }
    {
        let slot = self.written_slot(x);
        let id = self.act(Act::Restore(slot, a))?;
        Ok(id)
    }
}
