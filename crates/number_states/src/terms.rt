//! Terms by number, whose stacks are there.
ghost use Rattle.std.specs.Prelude.{◌≡◌, ◌<◌, ◌∷◌, [], IfOk, IfSome, Some, None, length};
ghost use Rattle.hs_base.specs.declared.mask.Mask.TheVariants.{Unmasked};
ghost use Rattle.rules_code.specs.declared.code.CodeBody.{CodeBody};
ghost use Rattle.slot_laws.specs.SlotRules.{at, doing, mask_in, mask_from};
ghost use Rattle.local_steps.specs.Machine.{act_of, active_of};
ghost use Rattle.number_states.specs.Stocks.{HasGrown, HasStepped, term_at, IsTerm};

use crate::numbers::Numbers;
use hs_base::{Mask, NoMemory};
use local_steps::Active;
use rules_code::{ActId, CodeBody};
use std::alloc::Global;
use term_graph::LocalStep;

impl Numbers {
    /// The term of a number has a stack that is there.
    fn stands(&self, term: u32)
        requires { term < length self.now.terms.terms }
        ensures { IsTerm self.now term }
    {
        match self.terms.get(term) {
            Some(_) => {}
            None => unreachable!(),
        }
    }

    /// The active part of the term of a number.
    pub fn part(&self, term: u32) -> &Active
        requires { IsTerm self.now term }
        ensures { (b : CodeBody) → active_of b result.now ≡ (term_at self.now b term).part }
    {
        match self.terms.get(term) {
            Some(one) => &one.part,
            None => unreachable!(),
        }
    }

    /// The masking state inside the term of a number.
    pub fn mask(&self, term: u32) -> Mask
        requires { IsTerm self.now term }
        ensures { (b : CodeBody) → result ≡ mask_from Unmasked (term_at self.now b term).frames }
    {
        match self.terms.get(term) {
            Some(one) => self.terms.mask(one.stack),
            None => unreachable!(),
        }
    }

    /// How many frames the term of a number has.
    pub fn depth(&self, term: u32) -> u32
        requires { IsTerm self.now term }
        ensures { (b : CodeBody) → result ≡ length (term_at self.now b term).frames }
    {
        match self.terms.get(term) {
            Some(one) => self.terms.depth(one.stack),
            None => unreachable!(),
        }
    }

    /// The number of the bare action that a run begins with.
    pub fn begun(&mut self, alloc: Global, main: ActId) -> Result<u32, NoMemory>
        ensures is { IfOk result (λ n. (b : CodeBody) → term_at self.new b n ≡ at (doing (act_of b main) []) []) }
        ensures there { IfOk result (λ n. IsTerm self.new n) }
        ensures grows { HasGrown self.old self.new }
    {
        term_graph::first(alloc, &mut self.terms, main)
    }

    /// The number of a term with this part in the place of its own, in the same frames.
    pub fn resumed(&mut self, alloc: Global, term: u32, part: Active) -> Result<u32, NoMemory>
        requires { IsTerm self.old term }
        ensures is { IfOk result (λ n. (b : CodeBody) → term_at self.new b n ≡ at (active_of b part) (term_at self.old b term).frames) }
        ensures there { IfOk result (λ n. IsTerm self.new n) }
        ensures grows { HasGrown self.old self.new }
    {
        term_graph::resumed(alloc, &mut self.terms, term, part)
    }

    /// The number of the term that a fork begins: the part in a masking scope with the state inside the term of its parent.
    pub fn forked(&mut self, alloc: Global, parent: u32, part: Active) -> Result<u32, NoMemory>
        requires { IsTerm self.old parent }
        ensures is { IfOk result (λ n. (b : CodeBody) → term_at self.new b n ≡ at (active_of b part) (mask_in (mask_from Unmasked (term_at self.old b parent).frames) ∷ [])) }
        ensures there { IfOk result (λ n. IsTerm self.new n) }
        ensures grows { HasGrown self.old self.new }
    {
        term_graph::forked(alloc, &mut self.terms, parent, part)
    }

    /// The local rule of the term of a number, if there is one.
    pub fn step(
        &mut self,
        alloc: Global,
        body: &CodeBody,
        term: u32,
    ) -> Result<Option<LocalStep>, NoMemory>
        requires { IsTerm self.old term }
        ensures is { IfOk result (λ found. HasStepped body.now self.old self.new term found) }
        ensures there { IfOk result (λ found. IfSome found (λ s. IsTerm self.new s.term)) }
        ensures grows { HasGrown self.old self.new }
    {
        match term_graph::step(alloc, body, &mut self.terms, term)? {
            None => Ok(None),
            Some(step) => {
                self.stands(step.term);
                Ok(Some(step))
            }
        }
    }
}
