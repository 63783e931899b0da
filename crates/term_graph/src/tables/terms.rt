ghost use Rattle.std.specs.Prelude.{◌≡◌, ◌<◌, ◌∷◌, [], ℕ, List, length, slice_get, Some, IfOk, IfSome, OnErr, MatchOption};
ghost use Rattle.std.specs.Option.{option_copied};
ghost use Rattle.hs_base.specs.declared.mask.Mask.TheVariants.{Unmasked};
ghost use Rattle.rules_code.specs.declared.code.CodeBody.{CodeBody};
ghost use Rattle.slot_laws.specs.SlotRules.{at};
ghost use Rattle.local_steps.specs.declared.active.Frame.{Frame};
ghost use Rattle.local_steps.specs.Frames.{mask_inside};
ghost use Rattle.local_steps.specs.Machine.{active_of, frame_of, frames_of};
ghost use Rattle.term_graph.specs.tables.Keys.{part_key};
ghost use Rattle.term_graph.specs.tables.Stacks.{Makes};
ghost use Rattle.term_graph.specs.tables.Numbered.{numbered, term_in, HasGrown, IsStack, StacksApart, TermsApart};

use crate::tables::level::Level;
use crate::tables::term::Term;
use hs_base::{Mask, NoMemory};
use local_steps::{Active, Frame};
use number_tables::Table;
use std::alloc::Global;
use std::marker::Model;

/// Stacks and terms by number. There are at most 2^32 of each.
pub struct Terms {
    levels: Table<Level>,
    terms: Table<Term>,
}

// Written out, so that it is proved once, here, and not in each function above that lets one go.
impl Drop for Terms {
    fn drop(self) {
        let Terms {
            levels: _,
            terms: _,
        } = self;
    }
}

impl Model for Terms {
    ghost use Rattle.std.specs.Coded.{codes};
    ghost use Rattle.hs_base.specs.contracts.value.Value as e;
    ghost use Rattle.term_graph.specs.tables.Stacks.{stacks_of, AreMeasured};
    ghost use Rattle.term_graph.specs.tables.Numbered.{Numbered, numbered, StandIn};

    ghost Value = { Numbered };

    ghost coded = { Prim.hlevel (codes, e.the_row.coded) };

    ghost view = { λ t. numbered (stacks_of t.levels) t.terms };

    ghost invariant = { λ t. AreMeasured t.levels × StandIn t.terms (stacks_of t.levels) };
}

/// The masking state inside a frame, by the one outside of it.
fn inside(frame: &Frame, outside: Mask) -> Mask
    ensures { (fs : List Frame) → outside ≡ mask_inside Unmasked fs → result ≡ mask_inside Unmasked (frame.now ∷ fs) }
{
    match frame {
        Frame::Mask(masking) => masking.inside,
        _ => outside,
    }
}

impl Terms {
    /// The stack of no frames, which has the number 0, and no terms.
    pub fn new(alloc: Global) -> Terms
        ensures { result ≡ numbered ([] ∷ []) [] }
    {
        Terms {
            levels: Table::new(alloc),
            terms: Table::new(alloc),
        }
    }

    /// The number of the stack of no frames.
    pub fn bare(&self) -> u32
        ensures { slice_get self.now.stacks result ≡ Some [] }
    {
        let _ = &self.levels;
        0
    }

    /// The term of a number.
    pub fn get(&self, number: u32) -> Option<&Term>
        ensures is { option_copied result ≡ slice_get self.now.terms number }
        ensures stack { IfSome result (λ t. t.now.stack < length self.now.stacks) }
    {
        self.terms.get(number)
    }

    /// The level that makes the stack of a number; none for that of no frames.
    fn level(&self, stack: u32) -> Option<&Level>
        ensures { (fs : List Frame) → slice_get self.now.stacks stack ≡ Some fs → MatchOption result (fs ≡ []) (λ l. Makes self.now.stacks fs l.now) }
    {
        let levels = &self.levels;
        if stack == 0 {
            return None;
        }
        levels.get(stack - 1)
    }

    /// The masking state inside the stack of a number.
    pub fn mask(&self, stack: u32) -> Mask
        ensures { (fs : List Frame) → slice_get self.now.stacks stack ≡ Some fs → result ≡ mask_inside Unmasked fs }
    {
        match self.level(stack) {
            None => Mask::Unmasked,
            Some(level) => level.mask,
        }
    }

    /// How many frames the stack of a number has.
    pub fn depth(&self, stack: u32) -> u32
        ensures { (fs : List Frame) → slice_get self.now.stacks stack ≡ Some fs → result ≡ length fs }
    {
        match self.level(stack) {
            None => 0,
            Some(level) => level.depth,
        }
    }

    /// The innermost frame of the stack of a number, and the number of the stack round it; none where there are no frames.
    pub fn innermost(&self, stack: u32) -> Option<(&Frame, u32)>
        ensures { (fs : List Frame) → slice_get self.now.stacks stack ≡ Some fs → MatchOption result (fs ≡ []) (λ p. (outer : List Frame) × (slice_get self.now.stacks p.1 ≡ Some outer) × (fs ≡ p.0.now ∷ outer)) }
    {
        match self.level(stack) {
            None => None,
            Some(level) => Some((&level.frame, level.outer)),
        }
    }

    /// The number of a frame inside the stack of a number. Where memory runs out all is as before.
    pub fn push(&mut self, alloc: Global, frame: Frame, outer: u32) -> Result<u32, NoMemory>
        requires { outer < length self.old.stacks }
        ensures is { IfOk result (λ n. (b : CodeBody) (fs : List Frame) → slice_get self.old.stacks outer ≡ Some fs → IsStack self.new b n (frame_of b frame ∷ frames_of b fs)) }
        ensures there { IfOk result (λ n. n < length self.new.stacks) }
        ensures grows { HasGrown self.old self.new }
        ensures err { OnErr result (self.new ≡ self.old) }
    {
        let mask = inside(&frame, self.mask(outer));
        let inner = self.depth(outer);
        if inner == u32::MAX {
            return Err(NoMemory);
        }
        if self.levels.len() >= u32::MAX as usize {
            return Err(NoMemory);
        }
        let level = Level {
            frame,
            outer,
            mask,
            depth: inner + 1,
        };
        let number = self.levels.number(alloc, level)?;
        Ok(number + 1)
    }

    /// The number of a part in the stack of a number. Where memory runs out all is as before.
    pub fn number(&mut self, alloc: Global, part: Active, stack: u32) -> Result<u32, NoMemory>
        requires { stack < length self.old.stacks }
        ensures is { IfOk result (λ n. (b : CodeBody) (fs : List Frame) → slice_get self.old.stacks stack ≡ Some fs → term_in self.new b n ≡ Some (at (active_of b part) (frames_of b fs))) }
        ensures there { IfOk result (λ n. n < length self.new.terms) }
        ensures grows { HasGrown self.old self.new }
        ensures err { OnErr result (self.new ≡ self.old) }
    {
        self.terms.number(alloc, Term { part, stack })
    }

    /// No two stacks have the same frames, and no two terms the same stack and one key.
    pub fn numbers_are_apart(&self)
        ensures stacks { StacksApart self.now }
        ensures terms { TermsApart self.now }
    {
        self.levels.keys_are_apart();
        self.terms.keys_are_apart();
    }
}
