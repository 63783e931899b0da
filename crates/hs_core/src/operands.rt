//! The expressions of a template.
use crate::defs::Defs;
use crate::emitter::ActEmitter;
use hs_base::tree::forms::{BinaryForm, SideForm, UnaryForm};
use hs_base::{Expr, NoMemory, Txt};
use rules_code::{ExprId, Node};
use rules_expansion::{Binder, Operand};
use std::alloc::Global;

/// What stands in a template for the expression of its form, and for the name that the form binds.
#[derive(Clone, Copy)]
pub struct Filled<'a> {
    pub subject: Option<&'a Expr>,
    pub given: &'a Txt,
}

impl ActEmitter {
    ghost use Rattle.std.specs.Prelude.{◌≡◌, IfOk, pos};
    ghost use Rattle.std.specs.Option.{option_copied};
    ghost use Rattle.hs_base.specs.declared.tree.forms.SideForm.TheVariants as d;
    ghost use Rattle.rules_expansion.specs.trees.Trees.{number, nothing_more};
    ghost use Rattle.rules_expansion.specs.Templates.{named, operand};
    ghost use Rattle.rules_code.specs.Slots.{slot_of, s_literal, s_unary, s_side, s_binary};
    ghost use Rattle.rules_code.specs.CodeTrees.{slot_or_end, slot_read, slotted_core_ex};
    ghost use Rattle.hs_nodes.specs.Names.{scope_of};
    ghost use Rattle.hs_core.specs.Defining.{Knows, roots};
    ghost use Rattle.hs_core.specs.Emits.{EmitsEx, Nothing_given};
    ghost use Rattle.hs_core.specs.Making.{subject_of};
    ghost use Rattle.hs_core.specs.Filled.{FilledWith};

    /// The slot of a name of a template.
    pub fn slot_bound(&self, x: Binder, given: &Txt) -> usize
        ensures { result ≡ slot_or_end (slot_of (scope_of self.now.emitter.scope) (named given.now x)) (scope_of self.now.emitter.scope) }
    {
        match x {
            Binder::Own(h) => self.slot(h),
            Binder::Given => self.written_slot(given),
        }
    }

    /// Reads a name of a template.
    fn read_bound(&mut self, x: Binder, given: &Txt) -> Result<ExprId, NoMemory>
        ensures { IfOk result (λ id. EmitsEx Nothing_given self.old self.new id (λ s. slot_read s (named given.now x))) }
    {
        let slot = self.slot_bound(x, given);
        let id = self.emitter.add(Node::Slot(slot))?;
        Ok(id)
    }

    /// A form of a name, as `Just x` and `fst x`.
    fn unary_bound(&mut self, form: UnaryForm, x: Binder, given: &Txt) -> Result<ExprId, NoMemory>
        ensures { IfOk result (λ id. EmitsEx Nothing_given self.old self.new id (λ s. s_unary form (slot_read s (named given.now x)))) }
    {
        let e = self.read_bound(x, given)?;
        let id = self.unary_node(form, e)?;
        Ok(id)
    }

    /// `Left x` or `Right x`.
    fn side_bound(&mut self, form: SideForm, x: Binder, given: &Txt) -> Result<ExprId, NoMemory>
        ensures { IfOk result (λ id. EmitsEx Nothing_given self.old self.new id (λ s. s_side form (slot_read s (named given.now x)))) }
    {
        let e = self.read_bound(x, given)?;
        let id = self.side_node(form, e)?;
        Ok(id)
    }

    /// `Right (Left x)` or `Right (Right x)`.
    fn right_bound(&mut self, form: SideForm, x: Binder, given: &Txt) -> Result<ExprId, NoMemory>
        ensures { IfOk result (λ id. EmitsEx Nothing_given self.old self.new id (λ s. s_side d.Right (s_side form (slot_read s (named given.now x))))) }
    {
        let e = self.side_bound(form, x, given)?;
        let id = self.side_node(SideForm::Right, e)?;
        Ok(id)
    }

    /// `Right ()`
    fn right_nil(&mut self) -> Result<ExprId, NoMemory>
        ensures { IfOk result (λ id. EmitsEx Nothing_given self.old self.new id (λ s. s_side d.Right (s_literal nothing_more))) }
    {
        let e = self.nil()?;
        let id = self.side_node(SideForm::Right, e)?;
        Ok(id)
    }

    /// A name, compared with 0.
    fn against_zero(&mut self, op: BinaryForm, x: Binder, given: &Txt) -> Result<ExprId, NoMemory>
        ensures { IfOk result (λ id. EmitsEx Nothing_given self.old self.new id (λ s. s_binary op (slot_read s (named given.now x)) (s_literal (number (pos 0))))) }
    {
        let e = self.read_bound(x, given)?;
        let f = self.zero()?;
        let id = self.binary_node(op, e, f)?;
        Ok(id)
    }

    /// A form of two names, as `x == y` and `(x, y)`.
    fn binary_bound(
        &mut self,
        form: BinaryForm,
        x: Binder,
        y: Binder,
        given: &Txt,
    ) -> Result<ExprId, NoMemory>
        ensures { IfOk result (λ id. EmitsEx Nothing_given self.old self.new id (λ s. s_binary form (slot_read s (named given.now x)) (slot_read s (named given.now y)))) }
    {
        let e = self.read_bound(x, given)?;
        let f = self.read_bound(y, given)?;
        let id = self.binary_node(form, e, f)?;
        Ok(id)
    }

    /// The expression of a form; `Nothing` where it has none.
    fn subject(
        &mut self,
        alloc: Global,
        defs: &Defs,
        subject: Option<&Expr>,
    ) -> Result<ExprId, NoMemory>
        ensures { IfOk result (λ id. EmitsEx (Knows self.old.emitter.nodes defs.now) self.old self.new id (λ s. slotted_core_ex (roots defs.now) s (subject_of (option_copied subject.entry)))) }
    {
        match subject {
            Some(e) => self.expr(alloc, defs, e),
            None => self.no_value(),
        }
    }

    /// An expression of a template.
    pub fn operand(
        &mut self,
        alloc: Global,
        defs: &Defs,
        what: Operand,
        filled: Filled,
    ) -> Result<ExprId, NoMemory>
        ensures { FilledWith filled.entry (λ f. IfOk result (λ id. EmitsEx (Knows self.old.emitter.nodes defs.now) self.old self.new id (λ s. slotted_core_ex (roots defs.now) s (operand f what)))) }
    {
        let Filled { subject, given } = filled;
        match what {
            Operand::Subject => self.subject(alloc, defs, subject),
            Operand::Read(x) => self.read_bound(x, given),
            Operand::JustRead(x) => self.unary_bound(UnaryForm::Just, x, given),
            Operand::NoValue => self.no_value(),
            Operand::BelowZero(x) => self.against_zero(BinaryForm::Less, x, given),
            Operand::IsZero(x) => self.against_zero(BinaryForm::Equal, x, given),
            Operand::SameExn(x, y) => self.binary_bound(BinaryForm::Equal, x, y, given),
            Operand::Killed => self.killed(),
            Operand::Nil => self.nil(),
            Operand::LeftRead(x) => self.side_bound(SideForm::Left, x, given),
            Operand::RightRead(x) => self.side_bound(SideForm::Right, x, given),
            Operand::RightLeft(x) => self.right_bound(SideForm::Left, x, given),
            Operand::RightRight(x) => self.right_bound(SideForm::Right, x, given),
            Operand::RightNil => self.right_nil(),
            Operand::PairRead(x, y) => self.binary_bound(BinaryForm::Pair, x, y, given),
            Operand::FirstOf(x) => self.unary_bound(UnaryForm::Fst, x, given),
            Operand::SecondOf(x) => self.unary_bound(UnaryForm::Snd, x, given),
        }
    }
}
