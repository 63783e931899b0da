ghost use Rattle.std.specs.Prelude.{◌≡◌, IfOk};
ghost use Rattle.typing_judge.specs.Judging.{has};
ghost use Rattle.typing_table.specs.Meaning.{type_in};
ghost use Rattle.typing_parts.specs.Views.{form_of, kind_has, part_of};

use crate::fault::Form;
use hs_base::NoMemory;
use hs_base::tree::Name;
use std::alloc::Global;
use typing_table::base::Base;
use typing_table::kind::{TypeKind, kind_in};
use typing_table::parts::{first_part, inner_part, second_part};
use typing_table::table::TypeTable;
use typing_table::ty::TypeTerm;

/// Whether types of the kind are of the form.
fn kind_has(form: Form, kind: TypeKind) -> bool
    ensures { result ≡ kind_has (form_of form) kind }
{
    match form {
        Form::Maybe => matches!(kind, TypeKind::Maybe),
        Form::Either => matches!(kind, TypeKind::Either),
        Form::List => matches!(kind, TypeKind::List),
        Form::Pair => matches!(kind, TypeKind::Pair),
        Form::Cell => matches!(kind, TypeKind::Cell),
        Form::Async => matches!(kind, TypeKind::Async),
        Form::Equal => match kind {
            TypeKind::Base(base) => base != Base::Unit,
            _ => false,
        },
        Form::Order => match kind {
            TypeKind::Base(base) => matches!(base, Base::Int | Base::Text),
            _ => false,
        },
        Form::Show => match kind {
            TypeKind::Base(base) => !matches!(base, Base::Unit | Base::Text),
            _ => false,
        },
    }
}

/// Whether a type is of the form.
#[tactic(auto, using(crate::proofs::Forms::has_kind))]
pub fn is_form(types: &TypeTable, form: Form, a: &TypeTerm) -> bool
    ensures { result ≡ has (form_of form) (type_in types.now.nodes a.now) }
{
    kind_has(form, kind_in(types, a))
}

/// A part of a type.
#[derive(Clone, Copy, Debug, PartialEq, Eq)]
pub enum TypePart {
    /// the type itself
    Whole,
    /// what a `Maybe`, a list, an `MVar` or an `Async` is of
    Inner,
    /// the first of a pair or an `Either`
    First,
    /// the second of a pair or an `Either`
    Second,
}

/// A name, and the part of a type that it is bound to.
#[derive(Clone, Copy)]
pub struct NamedPart<'a> {
    pub name: &'a Name,
    pub part: TypePart,
}

impl TypePart {
    pub fn named(self, name: &Name) -> NamedPart<'_>
        ensures { (result.name.now ≡ name.now) × (result.part ≡ self) }
    {
        NamedPart { name, part: self }
    }
}

/// That part of a type.
pub fn that_part(
    alloc: Global,
    types: &TypeTable,
    which: TypePart,
    t: &TypeTerm,
) -> Result<TypeTerm, NoMemory>
    ensures { IfOk result (λ b. type_in types.now.nodes b ≡ part_of which (type_in types.now.nodes t.now)) }
{
    match which {
        TypePart::Whole => Ok(t.copy(alloc)?),
        TypePart::Inner => inner_part(alloc, types, t),
        TypePart::First => first_part(alloc, types, t),
        TypePart::Second => second_part(alloc, types, t),
    }
}
