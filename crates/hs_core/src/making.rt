//! What waits while the steps of a template are gone through, and the steps that make whole actions of it.
use crate::emitter::ActEmitter;
use hs_base::NoMemory;
use hs_items::Items;
use rules_code::{Act, ActId, ExprId, Primitive};
use std::alloc::Global;

/// What waits while the steps of a template are gone through.
#[derive(Drop)]
pub struct Making {
    /// how many names the scope of the form has
    pub base: usize,
    /// the expressions, the last at the end
    pub operands: Items<ExprId>,
    /// the actions, the last at the end
    pub acts: Items<ActId>,
}

impl ActEmitter {
    ghost use Rattle.std.specs.Prelude.{IfOk, OnOk, List};
    ghost use Rattle.rules_code.specs.Slots.{Sx, s_none, s_more};
    ghost use Rattle.rules_code.specs.CodeTrees.{Sa, a_return, a_throw, a_let, a_bind, a_then, a_if, a_either, a_perform, a_fork, a_fork_unmask, a_catch, a_mask, a_mask_hard, a_restore};
    ghost use Rattle.hs_core.specs.declared.defs.Defs.{Defs};
    ghost use Rattle.hs_core.specs.Making.{of_none, of_operand, of_operands, of_act, of_acts, of_operand_act, of_operand_acts};
    ghost use Rattle.hs_core.specs.Waiting.{OperandOff, ActOff, Put, Moves};

    /// Takes the last expression off. Where none waits, `Nothing` stands for it.
    fn operand_off(&mut self, operands: &mut Items<ExprId>) -> Result<ExprId, NoMemory>
        ensures { (ts : List Sx) → IfOk result (λ id. OperandOff self.old self.new operands.old operands.new id ts) }
    {
        match operands.pop() {
            Some(e) => Ok(e),
            None => {
                let e = self.no_value()?;
                Ok(e)
            }
        }
    }

    /// Takes the last action off. Where none waits, it is a number for which no node stands.
    pub fn act_off(&self, acts: &mut Items<ActId>) -> ActId
        ensures { (us : List Sa) → ActOff self.now acts.old acts.new result us }
    {
        match acts.pop() {
            Some(i) => i,
            None => ActId(self.acts.len()),
        }
    }

    /// Adds an action's node, which waits then.
    fn put(&mut self, making: &mut Making, act: Act) -> Result<(), NoMemory>
        ensures { OnOk result (Put self.old self.new making.old making.new act) }
    {
        let id = self.act(act)?;
        making.acts.add(id)?;
        Ok(())
    }

    /// `return e`
    pub fn make_return(&mut self, making: &mut Making) -> Result<(), NoMemory>
        ensures { (d : Defs) → OnOk result (Moves d self.old self.new making.old making.new (λ s. of_operand a_return)) }
    {
        let e = self.operand_off(&mut making.operands)?;
        self.put(making, Act::Return(e))?;
        Ok(())
    }

    /// `throwIO e`
    pub fn make_throw(&mut self, making: &mut Making) -> Result<(), NoMemory>
        ensures { (d : Defs) → OnOk result (Moves d self.old self.new making.old making.new (λ s. of_operand a_throw)) }
    {
        let e = self.operand_off(&mut making.operands)?;
        self.put(making, Act::Throw(e))?;
        Ok(())
    }

    /// `let x = e; A`
    pub fn make_let(&mut self, making: &mut Making) -> Result<(), NoMemory>
        ensures { (d : Defs) → OnOk result (Moves d self.old self.new making.old making.new (λ s. of_operand_act a_let)) }
    {
        let e = self.operand_off(&mut making.operands)?;
        let i = self.act_off(&mut making.acts);
        self.put(making, Act::Let(e, i))?;
        Ok(())
    }

    /// `x <- A; B`
    pub fn make_bind(&mut self, making: &mut Making) -> Result<(), NoMemory>
        ensures { (d : Defs) → OnOk result (Moves d self.old self.new making.old making.new (λ s. of_acts a_bind)) }
    {
        let j = self.act_off(&mut making.acts);
        let i = self.act_off(&mut making.acts);
        self.put(making, Act::Bind(i, j))?;
        Ok(())
    }

    /// `A; B`
    pub fn make_then(&mut self, making: &mut Making) -> Result<(), NoMemory>
        ensures { (d : Defs) → OnOk result (Moves d self.old self.new making.old making.new (λ s. of_acts a_then)) }
    {
        let j = self.act_off(&mut making.acts);
        let i = self.act_off(&mut making.acts);
        self.put(making, Act::Then(i, j))?;
        Ok(())
    }

    /// `if e then A else B`
    pub fn make_if(&mut self, making: &mut Making) -> Result<(), NoMemory>
        ensures { (d : Defs) → OnOk result (Moves d self.old self.new making.old making.new (λ s. of_operand_acts a_if)) }
    {
        let e = self.operand_off(&mut making.operands)?;
        let j = self.act_off(&mut making.acts);
        let i = self.act_off(&mut making.acts);
        self.put(making, Act::If(e, i, j))?;
        Ok(())
    }

    /// `case e of { Left x -> A; Right y -> B }`
    pub fn make_case_either(&mut self, making: &mut Making) -> Result<(), NoMemory>
        ensures { (d : Defs) → OnOk result (Moves d self.old self.new making.old making.new (λ s. of_operand_acts a_either)) }
    {
        let e = self.operand_off(&mut making.operands)?;
        let j = self.act_off(&mut making.acts);
        let i = self.act_off(&mut making.acts);
        self.put(making, Act::CaseEither(e, i, j))?;
        Ok(())
    }

    /// A primitive without operands.
    pub fn make_perform(
        &mut self,
        alloc: Global,
        making: &mut Making,
        primitive: Primitive,
    ) -> Result<(), NoMemory>
        ensures { (d : Defs) → OnOk result (Moves d self.old self.new making.old making.new (λ s. of_none (a_perform primitive s_none))) }
    {
        self.put(making, Act::Perform(primitive, Items::new(alloc)))?;
        Ok(())
    }

    /// A primitive with one operand.
    pub fn make_perform_one(
        &mut self,
        alloc: Global,
        making: &mut Making,
        primitive: Primitive,
    ) -> Result<(), NoMemory>
        ensures { (d : Defs) → OnOk result (Moves d self.old self.new making.old making.new (λ s. of_operand (λ x. a_perform primitive (s_more x s_none)))) }
    {
        let e = self.operand_off(&mut making.operands)?;
        let es = Items::from_slice(alloc, &[e])?;
        self.put(making, Act::Perform(primitive, es))?;
        Ok(())
    }

    /// A primitive with two operands.
    pub fn make_perform_two(
        &mut self,
        alloc: Global,
        making: &mut Making,
        primitive: Primitive,
    ) -> Result<(), NoMemory>
        ensures { (d : Defs) → OnOk result (Moves d self.old self.new making.old making.new (λ s. of_operands (λ x y. a_perform primitive (s_more x (s_more y s_none))))) }
    {
        let f = self.operand_off(&mut making.operands)?;
        let e = self.operand_off(&mut making.operands)?;
        let es = Items::from_slice(alloc, &[e, f])?;
        self.put(making, Act::Perform(primitive, es))?;
        Ok(())
    }

    /// `forkIO A`
    pub fn make_fork(&mut self, making: &mut Making) -> Result<(), NoMemory>
        ensures { (d : Defs) → OnOk result (Moves d self.old self.new making.old making.new (λ s. of_act a_fork)) }
    {
        let i = self.act_off(&mut making.acts);
        self.put(making, Act::Fork(i))?;
        Ok(())
    }

    /// `forkIOWithUnmask r A`
    pub fn make_fork_unmask(&mut self, making: &mut Making) -> Result<(), NoMemory>
        ensures { (d : Defs) → OnOk result (Moves d self.old self.new making.old making.new (λ s. of_act a_fork_unmask)) }
    {
        let i = self.act_off(&mut making.acts);
        self.put(making, Act::ForkUnmask(i))?;
        Ok(())
    }

    /// `catch A x B`
    pub fn make_catch(&mut self, making: &mut Making) -> Result<(), NoMemory>
        ensures { (d : Defs) → OnOk result (Moves d self.old self.new making.old making.new (λ s. of_acts a_catch)) }
    {
        let j = self.act_off(&mut making.acts);
        let i = self.act_off(&mut making.acts);
        self.put(making, Act::Catch(i, j))?;
        Ok(())
    }

    /// `mask r A`
    pub fn make_mask(&mut self, making: &mut Making) -> Result<(), NoMemory>
        ensures { (d : Defs) → OnOk result (Moves d self.old self.new making.old making.new (λ s. of_act a_mask)) }
    {
        let i = self.act_off(&mut making.acts);
        self.put(making, Act::Mask(i))?;
        Ok(())
    }

    /// `uninterruptibleMask r A`
    pub fn make_mask_hard(&mut self, making: &mut Making) -> Result<(), NoMemory>
        ensures { (d : Defs) → OnOk result (Moves d self.old self.new making.old making.new (λ s. of_act a_mask_hard)) }
    {
        let i = self.act_off(&mut making.acts);
        self.put(making, Act::UninterruptibleMask(i))?;
        Ok(())
    }

    /// `restore r A`, with the slot of `r`
    pub fn make_restore(&mut self, making: &mut Making, slot: usize) -> Result<(), NoMemory>
        ensures { (d : Defs) → OnOk result (Moves d self.old self.new making.old making.new (λ s. of_act (a_restore slot))) }
    {
        let i = self.act_off(&mut making.acts);
        self.put(making, Act::Restore(slot, i))?;
        Ok(())
    }
}
