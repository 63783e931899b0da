//! Types.
ghost use Rattle.std.specs.Prelude.{◌≡◌, ◌++◌, OnOk, string_bytes};
ghost use Rattle.rules_expansion.specs.trees.Trees.{ty_of};
ghost use Rattle.haskell_module.specs.Types.{type_text};

use crate::pieces::put;
use hs_base::Ty;
use std::alloc::AllocError;

/// A type.
#[cycle(types)]
#[tactic(auto, using(rules_expansion::proofs::trees_lemmas::Equations::ty_rules))]
pub(crate) fn write_type(text: &mut String, ty: &Ty) -> Result<(), AllocError>
    ensures { OnOk result (string_bytes text.new ≡ string_bytes text.old ++ type_text (ty_of ty.now)) }
{
    match ty {
        Ty::Unit => put(text, "()"),
        Ty::Int => put(text, "Int"),
        Ty::Bool => put(text, "Bool"),
        Ty::Text => put(text, "Text"),
        Ty::Thread => put(text, "ThreadId"),
        Ty::Exn => put(text, "SomeException"),
        Ty::Pair(a, b) => write_two(text, "(", a.get(), ", ", b.get(), ")"),
        Ty::Maybe(a) => write_one(text, "(Maybe ", a.get(), ")"),
        Ty::Either(a, b) => write_two(text, "(Either ", a.get(), " ", b.get(), ")"),
        Ty::List(a) => write_one(text, "[", a.get(), "]"),
        Ty::Cell(a) => write_one(text, "(MVar ", a.get(), ")"),
        Ty::Async(a) => write_one(text, "(Async ", a.get(), ")"),
    }
}

#[cycle(types)]
fn write_one(text: &mut String, before: &str, part: &Ty, behind: &str) -> Result<(), AllocError>
    ensures { OnOk result (string_bytes text.new ≡ string_bytes text.old ++ (before.now ++ type_text (ty_of part.now) ++ behind.now)) }
{
    text.push_str(before)?;
    write_type(text, part)?;
    text.push_str(behind)
}

#[cycle(types)]
fn write_two(
    text: &mut String,
    before: &str,
    part: &Ty,
    between: &str,
    other: &Ty,
    behind: &str,
) -> Result<(), AllocError>
    ensures { OnOk result (string_bytes text.new ≡ string_bytes text.old ++ (before.now ++ type_text (ty_of part.now) ++ between.now ++ type_text (ty_of other.now) ++ behind.now)) }
{
    write_one(text, before, part, between)?;
    write_type(text, other)?;
    text.push_str(behind)
}
