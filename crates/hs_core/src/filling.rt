//! Actions that stand for others: the steps of their templates, with their own parts in them.
ghost use Rattle.std.specs.Prelude.{◌≡◌, IfOk};
ghost use Rattle.std.specs.Option.{option_copied};
ghost use Rattle.hs_core.specs.Making.{given_of};

use crate::defs::Defs;
use crate::emitter::ActEmitter;
use crate::making::Making;
use crate::operands::Filled;
use hs_base::{Action, Expr, NoMemory, Txt};
use hs_items::Items;
use hs_nodes::names::{bind, bind_added, off};
use rules_code::{Act, ActId};
use rules_expansion::{Binder, Derived, FormBlock, Operand, Step, steps};
use std::alloc::Global;

/// The expression of an action that stands for others, and the name that it binds, where it has them.
#[derive(Clone, Copy)]
pub struct FormParts<'a> {
    pub subject: Option<&'a Expr>,
    pub name: Option<&'a Txt>,
}

/// Those parts of an action.
pub fn parts<'a>(subject: Option<&'a Expr>, name: Option<&'a Txt>) -> FormParts<'a>
    ensures subject { option_copied result.subject ≡ option_copied subject.entry }
    ensures name { option_copied result.name ≡ option_copied name.entry }
{
    FormParts { subject, name }
}

/// The name that a form binds; an empty one where it binds none.
fn given(alloc: Global, name: Option<&Txt>) -> Result<Txt, NoMemory>
    ensures { IfOk result (λ x. x ≡ given_of (option_copied name.entry)) }
{
    let text = match name {
        Some(x) => x.copy(alloc)?,
        None => Txt::of(alloc, "")?,
    };
    Ok(text)
}

impl ActEmitter {
    ghost use Rattle.std.specs.Prelude.{◌≡◌, IfOk, OnOk, []};
    ghost use Rattle.std.specs.Option.{option_copied};
    ghost use Rattle.hs_core.specs.declared.defs.Defs.{Defs};
    ghost use Rattle.rules_expansion.specs.trees.Programs.{act_of};
    ghost use Rattle.hs_core.specs.declared.making.Making.{Making};
    ghost use Rattle.rules_expansion.specs.Templates.{operand};
    ghost use Rattle.rules_expansion.specs.declared.template.FormBlock.{FormBlock};
    ghost use Rattle.rules_expansion.specs.Expansion as expansion;
    ghost use Rattle.rules_code.specs.CodeTrees.{slotted_core, slotted_core_ex};
    ghost use Rattle.hs_core.specs.Defining.{Knows, roots, functions};
    ghost use Rattle.hs_core.specs.Emits.{Emits, Nothing_given};
    ghost use Rattle.hs_core.specs.Opening.{core_tree};
    ghost use Rattle.hs_core.specs.Making.{no_block, blocks_of, filling_of, above, pushing, under, leaving, bound, restoring, after};
    ghost use Rattle.hs_core.specs.Waiting.{Moves};
    ghost use Rattle.hs_core.specs.Filled.{FilledWith};

    /// An expression of a template, which waits then.
    fn push(
        &mut self,
        alloc: Global,
        defs: &Defs,
        making: &mut Making,
        what: Operand,
        filled: Filled,
    ) -> Result<(), NoMemory>
        ensures { FilledWith filled.entry (λ f. OnOk result (Moves defs.now self.old self.new making.old making.new (λ s t. pushing (slotted_core_ex (roots defs.now) (above t.names s) (operand f what)) t))) }
    {
        let id = self.operand(alloc, defs, what, filled)?;
        making.operands.add(id)?;
        Ok(())
    }

    /// A name of a template enters the scope.
    fn enter(&mut self, alloc: Global, x: Binder, given: &Txt) -> Result<(), NoMemory>
        ensures { (d : Defs) (m : Making) → OnOk result (Moves d self.old self.new m m (λ s. under (bound given.now x))) }
    {
        match x {
            Binder::Own(h) => bind_added(&mut self.emitter.scope, h),
            Binder::Given => bind(&mut self.emitter.scope, alloc, given),
        }
    }

    /// The last name above the first ones leaves the scope.
    fn leave(&mut self, base: usize)
        ensures { (d : Defs) (m : Making) → m.base ≡ base → Moves d self.old self.new m m (λ s. leaving) }
    {
        if self.emitter.scope.len() > base {
            off(&mut self.emitter.scope);
        }
    }

    /// `restore r A`
    fn make_restore_bound(
        &mut self,
        making: &mut Making,
        x: Binder,
        given: &Txt,
    ) -> Result<(), NoMemory>
        ensures { (d : Defs) → OnOk result (Moves d self.old self.new making.old making.new (λ s. restoring s given.now x)) }
    {
        let slot = self.slot_bound(x, given);
        self.make_restore(making, slot)?;
        Ok(())
    }

    /// A step of a template, but for a hole.
    fn step(
        &mut self,
        alloc: Global,
        defs: &Defs,
        making: &mut Making,
        step: Step,
        filled: Filled,
    ) -> Result<(), NoMemory>
        ensures { FilledWith filled.entry (λ f. ((i : FormBlock) → step ≡ Step.Hole i → ⊥) → OnOk result (Moves defs.now self.old self.new making.old making.new (λ s. after (roots defs.now) (functions defs.now) s f step))) }
    {
        match step {
            Step::Hole(_) => Ok(()),
            Step::Under(x) => self.enter(alloc, x, filled.given),
            Step::Off => {
                self.leave(making.base);
                Ok(())
            }
            Step::Push(what) => self.push(alloc, defs, making, what, filled),
            Step::Return => self.make_return(making),
            Step::Throw => self.make_throw(making),
            Step::Let => self.make_let(making),
            Step::Bind => self.make_bind(making),
            Step::Then => self.make_then(making),
            Step::If => self.make_if(making),
            Step::CaseEither => self.make_case_either(making),
            Step::Perform(primitive) => self.make_perform(alloc, making, primitive),
            Step::PerformOne(primitive) => self.make_perform_one(alloc, making, primitive),
            Step::PerformTwo(primitive) => self.make_perform_two(alloc, making, primitive),
            Step::Fork => self.make_fork(making),
            Step::ForkUnmask => self.make_fork_unmask(making),
            Step::Catch => self.make_catch(making),
            Step::Mask => self.make_mask(making),
            Step::MaskHard => self.make_mask_hard(making),
            Step::Restore(x) => self.make_restore_bound(making, x, filled.given),
        }
    }

    /// `return Nothing`
    fn no_block(&mut self) -> Result<ActId, NoMemory>
        ensures { IfOk result (λ id. Emits Nothing_given self.old self.new id (λ s. slotted_core [] [] s no_block)) }
    {
        let e = self.no_value()?;
        let id = self.act(Act::Return(e))?;
        Ok(id)
    }

    /// A block of an action that stands for others.
    #[cycle(expand)]
    fn hole(
        &mut self,
        alloc: Global,
        defs: &Defs,
        part: FormBlock,
        a: &Action,
    ) -> Result<ActId, NoMemory>
        ensures { IfOk result (λ id. Emits (Knows self.old.emitter.nodes defs.now) self.old self.new id (λ s. core_tree defs.now s (blocks_of (act_of a.now) part))) }
    {
        match a {
            Action::ModifyMVar(_, _, _, b) => self.block(alloc, defs, b),
            Action::Scoped(_, _, b) => self.block(alloc, defs, b),
            Action::Timeout(_, _, b) => self.block(alloc, defs, b),
            Action::Guard(_, _, b, d) | Action::WithAsync(_, b, _, d) => match part {
                FormBlock::First => self.block(alloc, defs, b),
                FormBlock::Second => self.block(alloc, defs, d),
                FormBlock::Third => self.block(alloc, defs, d),
            },
            Action::Bracket(_, b, _, d, u) => match part {
                FormBlock::First => self.block(alloc, defs, b),
                FormBlock::Second => self.block(alloc, defs, d),
                FormBlock::Third => self.block(alloc, defs, u),
            },
            Action::Bare(_, _)
            | Action::Unary(_, _, _)
            | Action::Binary(_, _, _, _)
            | Action::ThrowIo(_, _, _)
            | Action::NewEmptyMVar(_, _)
            | Action::Call(_, _)
            | Action::If(_, _, _, _)
            | Action::Case(_, _, _)
            | Action::Masking(_, _, _, _)
            | Action::Restore(_, _, _)
            | Action::Catch(_, _, _, _) => self.no_block(),
        }
    }

    /// An action that stands for others: the steps of its template, with its own parts in them.
    #[cycle(expand)]
    pub fn derived(
        &mut self,
        alloc: Global,
        defs: &Defs,
        form: Derived,
        parts: FormParts,
        a: &Action,
    ) -> Result<ActId, NoMemory>
        ensures { IfOk result (λ id. Emits (Knows self.old.emitter.nodes defs.now) self.old self.new id (λ s. core_tree defs.now s (expansion.derived form (filling_of (option_copied parts.entry.subject) (option_copied parts.entry.name) (act_of a.now))))) }
    {
        let given = given(alloc, parts.name)?;
        let mut making = Making {
            base: self.emitter.scope.len(),
            operands: Items::new(alloc),
            acts: Items::new(alloc),
        };
        'steps: for step in steps(form) {
            match *step {
                Step::Hole(part) => {
                    let i = self.hole(alloc, defs, part, a)?;
                    making.acts.add(i)?;
                }
                other => {
                    let filled = Filled {
                        subject: parts.subject,
                        given: &given,
                    };
                    self.step(alloc, defs, &mut making, other, filled)?
                }
            }
        }
        let id = self.act_off(&mut making.acts);
        Ok(id)
    }
}
