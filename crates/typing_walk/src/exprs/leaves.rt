//! What the walk does where it goes no deeper: words, written types, names that are bound, and types that are gathered.
ghost use Rattle.std.specs.Prelude.{◌≡◌, [], ◌∷◌, IfOk};
ghost use Rattle.rules_expansion.specs.trees.Trees.{wr_of, constant_of};
ghost use Rattle.typing_table.specs.Meaning.{base_of, type_in};
ghost use Rattle.rules_typing.specs.Typing.{of, row_empty, type_of_lit};
ghost use Rattle.typing_judge.specs.Judging.{good, needing, own, part, typed, written};
ghost use Rattle.typing_parts.specs.Views.{form_of, opt_ty, part_of};
ghost use Rattle.typing_parts.specs.Judged.{pushed};
ghost use Rattle.typing_walk.specs.exprs.Entering.{Entered};
ghost use Rattle.typing_parts.specs.JudgedAs.{JudgedAs};

use hs_base::tree::forms::EmptyForm;
use hs_base::tree::{Constant, Written};
use hs_base::{NoMemory, Pos};
use hs_items::Items;
use std::alloc::Global;
use typing_parts::Form;
use typing_parts::checker::Checker;
use typing_parts::first::Broken;
use typing_parts::parts::NamedPart;
use typing_table::base::Base;
use typing_table::table::TypeTable;
use typing_table::ty::TypeTerm;

/// The type of an atom that is one word.
pub fn constant_type(constant: Constant) -> Base
    ensures { base_of result ≡ type_of_lit (constant_of constant) }
{
    match constant {
        Constant::True => Base::Bool,
        Constant::False => Base::Bool,
        Constant::ThreadKilled => Base::Exn,
        Constant::UserInterrupt => Base::Exn,
        Constant::DivideByZero => Base::Exn,
        Constant::Overflow => Base::Exn,
    }
}

/// The type of `Nothing` or `[]`.
#[tactic(auto, using(typing_parts::proofs::Noted::noted_rules))]
pub fn empty(
    checker: &mut Checker,
    types: &TypeTable,
    p: Pos,
    o: EmptyForm,
    w: &Written,
) -> Result<Option<TypeTerm>, NoMemory>
    ensures { JudgedAs types.now checker.old checker.new result (part (written (wr_of w.now)) (λ u. own p (row_empty o u))) }
{
    let t = checker.written(types, w)?;
    let r = checker.close_empty(types, p, o, t)?;
    Ok(r)
}

/// The type of what a `case` looks at, where it is of the form that the alternatives ask for.
pub fn fitting(
    checker: &mut Checker,
    types: &TypeTable,
    p: Pos,
    form: Form,
    t: Option<TypeTerm>,
) -> Result<Option<TypeTerm>, NoMemory>
    ensures { JudgedAs types.now checker.old checker.new result (part (typed (opt_ty types.now.nodes t)) (λ u. needing p (of (form_of form) u ∷ []) (good u))) }
{
    match t {
        None => Ok(None),
        Some(t) => {
            if checker.fits(types, p, form, &t)? {
                Ok(Some(t))
            } else {
                Ok(None)
            }
        }
    }
}

/// Binds a name to a part of a type where the scope takes it, and else notes that it is full.
pub fn enter(
    checker: &mut Checker,
    types: &TypeTable,
    x: NamedPart,
    t: &TypeTerm,
) -> Result<bool, NoMemory>
    ensures { IfOk result (λ b. Entered types.now.nodes checker.old checker.new b x.entry.name.now (part_of x.entry.part (type_in types.now.nodes t.now))) }
{
    if checker.is_full(types) {
        checker.first.note(types, Broken::Scope(x.name.pos));
        return Ok(false);
    }
    checker.bind_part(types, x.name, x.part, t)?;
    Ok(true)
}

/// The types with one more, where all are known.
pub fn added(
    ts: Option<Items<TypeTerm>>,
    t: Option<TypeTerm>,
) -> Result<Option<Items<TypeTerm>>, NoMemory>
    ensures { IfOk result (λ us. us ≡ pushed ts t) }
{
    match ts {
        None => Ok(None),
        Some(us) => match t {
            None => Ok(None),
            Some(u) => {
                let mut us = us;
                us.add(u)?;
                Ok(Some(us))
            }
        },
    }
}

/// The type of the first operand, before those that follow.
pub fn alone(alloc: Global, t: Option<TypeTerm>) -> Result<Items<Option<TypeTerm>>, NoMemory>
    ensures { IfOk result (λ ts. ts ≡ t ∷ []) }
{
    let mut ts = Items::new(alloc);
    ts.add(t)?;
    Ok(ts)
}
