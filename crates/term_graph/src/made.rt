//! Terms that are made of others: by an answer or an exception in a part's place, and by a fork.
ghost use Rattle.std.specs.Prelude.{◌≡◌, ◌<◌, ◌∷◌, [], IfOk, length, Some};
ghost use Rattle.hs_base.specs.declared.mask.Mask.TheVariants.{Unmasked};
ghost use Rattle.rules_code.specs.declared.code.CodeBody.{CodeBody};
ghost use Rattle.slot_laws.specs.SlotRules.{SlotTerm, at, doing, mask_in, mask_from};
ghost use Rattle.local_steps.specs.Machine.{act_of, active_of};
ghost use Rattle.term_graph.specs.tables.Numbered.{term_in, HasGrown, IsStack};

use crate::tables::Terms;
use hs_base::{Mask, NoMemory};
use local_steps::environments::Env;
use local_steps::{Active, Frame, Masking};
use rules_code::ActId;
use std::alloc::Global;

/// The stack of the term of a number.
fn stack_of(terms: &Terms, number: u32) -> u32
    requires { number < length terms.now.terms }
    ensures there { result < length terms.now.stacks }
    ensures is { (b : CodeBody) (st : SlotTerm) → term_in terms.now b number ≡ Some st → IsStack terms.now b result st.frames }
{
    match terms.get(number) {
        Some(term) => term.stack,
        None => unreachable!(),
    }
}

/// The number of the bare action that a run begins with. Where memory runs out all is as before.
pub fn first(alloc: Global, terms: &mut Terms, main: ActId) -> Result<u32, NoMemory>
    ensures is { IfOk result (λ n. (b : CodeBody) → term_in terms.new b n ≡ Some (at (doing (act_of b main) []) [])) }
    ensures there { IfOk result (λ n. n < length terms.new.terms) }
    ensures grows { HasGrown terms.old terms.new }
{
    let bare = terms.bare();
    terms.number(alloc, Active::Doing(main, Env::new(alloc)), bare)
}

/// The number of a term with this part in the place of its own, in the same frames. Where memory runs out all is as before.
pub fn resumed(alloc: Global, terms: &mut Terms, number: u32, part: Active) -> Result<u32, NoMemory>
    requires { number < length terms.old.terms }
    ensures is { IfOk result (λ n. (b : CodeBody) (st : SlotTerm) → term_in terms.old b number ≡ Some st → term_in terms.new b n ≡ Some (at (active_of b part) st.frames)) }
    ensures there { IfOk result (λ n. n < length terms.new.terms) }
    ensures grows { HasGrown terms.old terms.new }
{
    let stack = stack_of(terms, number);
    terms.number(alloc, part, stack)
}

/// The number of the term that a fork begins: the part in a masking scope with the state inside the term of its parent. Where
/// memory runs out a stack may have got a number.
pub fn forked(alloc: Global, terms: &mut Terms, parent: u32, part: Active) -> Result<u32, NoMemory>
    requires { parent < length terms.old.terms }
    ensures is { IfOk result (λ n. (b : CodeBody) (st : SlotTerm) → term_in terms.old b parent ≡ Some st → term_in terms.new b n ≡ Some (at (active_of b part) (mask_in (mask_from Unmasked st.frames) ∷ []))) }
    ensures there { IfOk result (λ n. n < length terms.new.terms) }
    ensures grows { HasGrown terms.old terms.new }
{
    let inside = terms.mask(stack_of(terms, parent));
    let scope = Frame::Mask(Masking {
        inside,
        outside: Mask::Unmasked,
    });
    let bare = terms.bare();
    let stack = terms.push(alloc, scope, bare)?;
    terms.number(alloc, part, stack)
}
