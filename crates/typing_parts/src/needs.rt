ghost use Rattle.std.specs.Prelude.{[], ◌∷◌, IfOk, map, true};
ghost use Rattle.rules_expansion.specs.trees.Trees.{bool};
ghost use Rattle.typing_table.specs.Meaning.{base_of, type_in};
ghost use Rattle.rules_typing.specs.Typing.{is, of, gives, is_each};
ghost use Rattle.typing_judge.specs.Judging.{own, made};
ghost use Rattle.typing_parts.specs.Views.{form_of, opt_ty, part_of, place_types, tys_of};
ghost use Rattle.typing_parts.specs.Judged.{Judged, Needed, AllNeeded};
ghost use Rattle.typing_parts.specs.JudgedAs.{JudgedAs};

use crate::checker::Checker;
use crate::fault::Form;
use crate::first::{Asked, Broken};
use crate::parts::{TypePart, is_form, that_part};
use hs_base::{NoMemory, Pos};
use typing_table::base::Base;
use typing_table::sameness::same_types;
use typing_table::table::TypeTable;
use typing_table::ty::TypeTerm;
use typing_table::widths::is_wide;

#[tactic(auto, using(typing_table::proofs::Equations::type_rules))]
impl Checker {
    /// The types are the same, or a mismatch is noted.
    pub fn is(
        &mut self,
        types: &TypeTable,
        p: Pos,
        want: &TypeTerm,
        got: &TypeTerm,
    ) -> Result<bool, NoMemory>
        ensures { IfOk result (λ b. Needed types.now.nodes self.old self.new b p (is (type_in types.now.nodes want.now) (type_in types.now.nodes got.now))) }
    {
        let same = same_types(types, want, got);
        if !same {
            let want = Asked::Exactly(want.copy(self.alloc)?);
            let got = got.copy(self.alloc)?;
            self.first.note(types, Broken::Mismatch(p, want, got));
        }
        Ok(same)
    }

    /// The type is of the form, or a mismatch is noted.
    pub fn fits(
        &mut self,
        types: &TypeTable,
        p: Pos,
        form: Form,
        got: &TypeTerm,
    ) -> Result<bool, NoMemory>
        ensures { IfOk result (λ b. Needed types.now.nodes self.old self.new b p (of (form_of form) (type_in types.now.nodes got.now))) }
    {
        let fits = is_form(types, form, got);
        if !fits {
            let got = got.copy(self.alloc)?;
            self.first
                .note(types, Broken::Mismatch(p, Asked::Form(form), got));
        }
        Ok(fits)
    }

    /// A type that a form makes.
    pub fn unless_wide(&mut self, types: &TypeTable, p: Pos, t: TypeTerm) -> Option<TypeTerm>
        ensures { Judged types.now.nodes self.old self.new (opt_ty types.now.nodes result) (made p true (type_in types.now.nodes t)) }
    {
        if is_wide(types, &t) {
            self.first.note(types, Broken::Wide(p));
            None
        } else {
            Some(t)
        }
    }

    /// The type is this one without parts, or a mismatch is noted.
    pub fn is_base(
        &mut self,
        types: &TypeTable,
        p: Pos,
        want: Base,
        got: &TypeTerm,
    ) -> Result<bool, NoMemory>
        ensures { IfOk result (λ b. Needed types.now.nodes self.old self.new b p (is (base_of want) (type_in types.now.nodes got.now))) }
    {
        let want = TypeTerm::Base(want);
        let same = self.is(types, p, &want, got)?;
        Ok(same)
    }

    /// A row with one need, that a part is of this type.
    pub fn of_type(
        &mut self,
        types: &TypeTable,
        p: Pos,
        want: &TypeTerm,
        got: &TypeTerm,
        t: Base,
    ) -> Result<Option<TypeTerm>, NoMemory>
        ensures { JudgedAs types.now self.old self.new result (own p (gives (is (type_in types.now.nodes want.now) (type_in types.now.nodes got.now) ∷ []) (base_of t))) }
    {
        if self.is(types, p, want, got)? {
            Ok(Some(TypeTerm::Base(t)))
        } else {
            Ok(None)
        }
    }

    /// A row with one need, that a part is of a form.
    pub fn of_form(
        &mut self,
        types: &TypeTable,
        p: Pos,
        form: Form,
        got: &TypeTerm,
        t: Base,
    ) -> Result<Option<TypeTerm>, NoMemory>
        ensures { JudgedAs types.now self.old self.new result (own p (gives (of (form_of form) (type_in types.now.nodes got.now) ∷ []) (base_of t))) }
    {
        if self.fits(types, p, form, got)? {
            Ok(Some(TypeTerm::Base(t)))
        } else {
            Ok(None)
        }
    }

    /// A row that asks a form of its part, and gives what that part is of.
    pub fn its_part(
        &mut self,
        types: &TypeTable,
        p: Pos,
        form: Form,
        which: TypePart,
        got: &TypeTerm,
    ) -> Result<Option<TypeTerm>, NoMemory>
        ensures { JudgedAs types.now self.old self.new result (own p (gives (of (form_of form) (type_in types.now.nodes got.now) ∷ []) (part_of which (type_in types.now.nodes got.now)))) }
    {
        if self.fits(types, p, form, got)? {
            Ok(Some(that_part(self.alloc, types, which, got)?))
        } else {
            Ok(None)
        }
    }

    /// A row with one need, that a part is of a type.
    pub fn one(
        &mut self,
        types: &TypeTable,
        p: Pos,
        want: Base,
        got: &TypeTerm,
        t: Base,
    ) -> Result<Option<TypeTerm>, NoMemory>
        ensures { JudgedAs types.now self.old self.new result (own p (gives (is (base_of want) (type_in types.now.nodes got.now) ∷ []) (base_of t))) }
    {
        let want = TypeTerm::Base(want);
        self.of_type(types, p, &want, got, t)
    }

    /// A row that asks one type of two parts, and gives that type.
    pub fn both(
        &mut self,
        types: &TypeTable,
        p: Pos,
        base: Base,
        a: &TypeTerm,
        b: &TypeTerm,
    ) -> Result<Option<TypeTerm>, NoMemory>
        ensures { JudgedAs types.now self.old self.new result (own p (gives (is (base_of base) (type_in types.now.nodes a.now) ∷ is (base_of base) (type_in types.now.nodes b.now) ∷ []) (base_of base))) }
    {
        if !self.is_base(types, p, base, a)? {
            return Ok(None);
        }
        self.one(types, p, base, b, base)
    }

    /// A row of a comparison: it asks a form of its first part, and of the second that it is the same.
    pub fn alike(
        &mut self,
        types: &TypeTable,
        p: Pos,
        form: Form,
        a: &TypeTerm,
        b: &TypeTerm,
    ) -> Result<Option<TypeTerm>, NoMemory>
        ensures { JudgedAs types.now self.old self.new result (own p (gives (of (form_of form) (type_in types.now.nodes a.now) ∷ is (type_in types.now.nodes a.now) (type_in types.now.nodes b.now) ∷ []) bool)) }
    {
        if !self.fits(types, p, form, a)? {
            return Ok(None);
        }
        self.of_type(types, p, a, b, Base::Bool)
    }

    /// Each is of the type, or a mismatch is noted for the first that isn't.
    pub fn all_are(
        &mut self,
        types: &TypeTable,
        p: Pos,
        t: &TypeTerm,
        us: &[TypeTerm],
    ) -> Result<bool, NoMemory>
        ensures { IfOk result (λ b. AllNeeded types.now.nodes self.old self.new b p (map (is (type_in types.now.nodes t.now)) (tys_of types.now.nodes us.now))) }
    {
        'each: for u in us {
            if !self.is(types, p, t, u)? {
                return Ok(false);
            }
        }
        Ok(true)
    }

    /// Each is of the type at the parameter's place.
    pub fn each_is(
        &mut self,
        types: &TypeTable,
        p: Pos,
        params: &[usize],
        us: &[TypeTerm],
    ) -> Result<bool, NoMemory>
        ensures { IfOk result (λ b. AllNeeded types.now.nodes self.old self.new b p (is_each (place_types types.now.nodes params.now) (tys_of types.now.nodes us.now))) }
    {
        'each: for (i, place) in params.iter().enumerate() {
            match us.get(i) {
                None => return Ok(true),
                Some(u) => {
                    if !self.is(types, p, &TypeTerm::Known(*place), u)? {
                        return Ok(false);
                    }
                }
            }
        }
        Ok(true)
    }
}
