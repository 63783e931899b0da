ghost use Rattle.rules_expansion.specs.trees.Trees.{wr_of};
ghost use Rattle.typing_table.specs.Meaning.{type_in};
ghost use Rattle.rules_typing.specs.Typing.{row_unary, row_binary, row_empty, row_side, row_choose, row_arms, row_items};
ghost use Rattle.typing_judge.specs.Judging.{own, with1, with2, with3, with_all, written};
ghost use Rattle.typing_parts.specs.Views.{opt_ty, opt_tys};
ghost use Rattle.typing_parts.specs.JudgedAs.{JudgedAs};

use crate::checker::Checker;
use crate::fault::Form;
use crate::first::Broken;
use crate::parts::TypePart;
use hs_base::tree::Written;
use hs_base::tree::forms::{BinaryForm, EmptyForm, SideForm, UnaryForm};
use hs_base::{NoMemory, Pos};
use hs_items::Items;
use typing_table::base::Base;
use typing_table::table::TypeTable;
use typing_table::ty::{TypeTerm, either_of, list_of, maybe_of, pair_of};
use typing_table::widths::is_wide_written;
use typing_table::written::from_written;

/// The types that `Left` or `Right` is written with, where they aren't too wide.
#[derive(Drop)]
pub struct Sides {
    pub left: Option<TypeTerm>,
    pub right: Option<TypeTerm>,
}

#[tactic(auto, using(typing_table::proofs::Equations::type_rules))]
impl Checker {
    fn row_unary(
        &mut self,
        types: &TypeTable,
        p: Pos,
        o: UnaryForm,
        a: &TypeTerm,
    ) -> Result<Option<TypeTerm>, NoMemory>
        ensures { JudgedAs types.now self.old self.new result (own p (row_unary o (type_in types.now.nodes a.now))) }
    {
        match o {
            UnaryForm::Just => {
                let t = maybe_of(self.alloc, a)?;
                Ok(self.unless_wide(types, p, t))
            }
            UnaryForm::ErrorCall => self.one(types, p, Base::Text, a, Base::Exn),
            UnaryForm::Not => self.one(types, p, Base::Bool, a, Base::Bool),
            UnaryForm::Fst => self.its_part(types, p, Form::Pair, TypePart::First, a),
            UnaryForm::Snd => self.its_part(types, p, Form::Pair, TypePart::Second, a),
            UnaryForm::Show => self.of_form(types, p, Form::Show, a, Base::Text),
            UnaryForm::Negate => self.one(types, p, Base::Int, a, Base::Int),
        }
    }

    pub fn row_binary(
        &mut self,
        types: &TypeTable,
        p: Pos,
        o: BinaryForm,
        a: &TypeTerm,
        b: &TypeTerm,
    ) -> Result<Option<TypeTerm>, NoMemory>
        ensures { JudgedAs types.now self.old self.new result (own p (row_binary o (type_in types.now.nodes a.now) (type_in types.now.nodes b.now))) }
    {
        match o {
            BinaryForm::Pair => {
                let t = pair_of(self.alloc, a, b)?;
                Ok(self.unless_wide(types, p, t))
            }
            BinaryForm::Div => self.both(types, p, Base::Int, a, b),
            BinaryForm::Mod => self.both(types, p, Base::Int, a, b),
            BinaryForm::Equal => self.alike(types, p, Form::Equal, a, b),
            BinaryForm::Unequal => self.alike(types, p, Form::Equal, a, b),
            BinaryForm::Less => self.alike(types, p, Form::Order, a, b),
            BinaryForm::AtMost => self.alike(types, p, Form::Order, a, b),
            BinaryForm::Greater => self.alike(types, p, Form::Order, a, b),
            BinaryForm::AtLeast => self.alike(types, p, Form::Order, a, b),
            BinaryForm::Or => self.both(types, p, Base::Bool, a, b),
            BinaryForm::And => self.both(types, p, Base::Bool, a, b),
            BinaryForm::Plus => self.both(types, p, Base::Int, a, b),
            BinaryForm::Minus => self.both(types, p, Base::Int, a, b),
            BinaryForm::Times => self.both(types, p, Base::Int, a, b),
            BinaryForm::Cons => self.row_cons(types, p, a, b),
            BinaryForm::Append => self.both(types, p, Base::Text, a, b),
        }
    }

    fn row_cons(
        &mut self,
        types: &TypeTable,
        p: Pos,
        a: &TypeTerm,
        b: &TypeTerm,
    ) -> Result<Option<TypeTerm>, NoMemory>
        ensures { JudgedAs types.now self.old self.new result (own p (row_binary BinaryForm.Cons (type_in types.now.nodes a.now) (type_in types.now.nodes b.now))) }
    {
        let t = list_of(self.alloc, a)?;
        if self.is(types, p, &t, b)? {
            Ok(Some(t))
        } else {
            Ok(None)
        }
    }

    fn row_arms(
        &mut self,
        types: &TypeTable,
        p: Pos,
        a: &TypeTerm,
        b: &TypeTerm,
    ) -> Result<Option<TypeTerm>, NoMemory>
        ensures { JudgedAs types.now self.old self.new result (own p (row_arms (type_in types.now.nodes a.now) (type_in types.now.nodes b.now))) }
    {
        if self.is(types, p, a, b)? {
            Ok(Some(a.copy(self.alloc)?))
        } else {
            Ok(None)
        }
    }

    /// A written type, where it isn't too wide.
    pub fn written(&mut self, types: &TypeTable, w: &Written) -> Result<Option<TypeTerm>, NoMemory>
        ensures { JudgedAs types.now self.old self.new result (written (wr_of w.now)) }
    {
        if is_wide_written(&w.ty) {
            self.first.note(types, Broken::Wide(w.pos));
            return Ok(None);
        }
        Ok(Some(from_written(self.alloc, &w.ty)?))
    }

    pub fn close_unary(
        &mut self,
        types: &TypeTable,
        p: Pos,
        o: UnaryForm,
        a: Option<TypeTerm>,
    ) -> Result<Option<TypeTerm>, NoMemory>
        ensures { JudgedAs types.now self.old self.new result (with1 (opt_ty types.now.nodes a) (λ u. own p (row_unary o u))) }
    {
        let Some(a) = a else { return Ok(None) };
        self.row_unary(types, p, o, &a)
    }

    pub fn close_binary(
        &mut self,
        types: &TypeTable,
        p: Pos,
        o: BinaryForm,
        a: Option<TypeTerm>,
        b: Option<TypeTerm>,
    ) -> Result<Option<TypeTerm>, NoMemory>
        ensures { JudgedAs types.now self.old self.new result (with2 (opt_ty types.now.nodes a) (opt_ty types.now.nodes b) (λ u v. own p (row_binary o u v))) }
    {
        let Some(a) = a else { return Ok(None) };
        let Some(b) = b else { return Ok(None) };
        self.row_binary(types, p, o, &a, &b)
    }

    pub fn close_choose(
        &mut self,
        types: &TypeTable,
        p: Pos,
        c: Option<TypeTerm>,
        a: Option<TypeTerm>,
        b: Option<TypeTerm>,
    ) -> Result<Option<TypeTerm>, NoMemory>
        ensures { JudgedAs types.now self.old self.new result (with3 (opt_ty types.now.nodes c) (opt_ty types.now.nodes a) (opt_ty types.now.nodes b) (λ u v w. own p (row_choose u v w))) }
    {
        let Some(c) = c else { return Ok(None) };
        let Some(a) = a else { return Ok(None) };
        let Some(b) = b else { return Ok(None) };
        if !self.is_base(types, p, Base::Bool, &c)? {
            return Ok(None);
        }
        self.row_arms(types, p, &a, &b)
    }

    pub fn close_arms(
        &mut self,
        types: &TypeTable,
        p: Pos,
        a: Option<TypeTerm>,
        b: Option<TypeTerm>,
    ) -> Result<Option<TypeTerm>, NoMemory>
        ensures { JudgedAs types.now self.old self.new result (with2 (opt_ty types.now.nodes a) (opt_ty types.now.nodes b) (λ u v. own p (row_arms u v))) }
    {
        let Some(a) = a else { return Ok(None) };
        let Some(b) = b else { return Ok(None) };
        self.row_arms(types, p, &a, &b)
    }

    pub fn close_empty(
        &mut self,
        types: &TypeTable,
        p: Pos,
        o: EmptyForm,
        t: Option<TypeTerm>,
    ) -> Result<Option<TypeTerm>, NoMemory>
        ensures { JudgedAs types.now self.old self.new result (with1 (opt_ty types.now.nodes t) (λ u. own p (row_empty o u))) }
    {
        let Some(t) = t else { return Ok(None) };
        let made = match o {
            EmptyForm::Nothing => maybe_of(self.alloc, &t)?,
            EmptyForm::EmptyList => list_of(self.alloc, &t)?,
        };
        Ok(self.unless_wide(types, p, made))
    }

    pub fn close_side(
        &mut self,
        types: &TypeTable,
        p: Pos,
        o: SideForm,
        sides: Sides,
        a: Option<TypeTerm>,
    ) -> Result<Option<TypeTerm>, NoMemory>
        ensures { JudgedAs types.now self.old self.new result (with3 (opt_ty types.now.nodes sides.left) (opt_ty types.now.nodes sides.right) (opt_ty types.now.nodes a) (λ u v w. own p (row_side o u v w))) }
    {
        let Sides { left, right } = sides;
        let Some(left) = left else { return Ok(None) };
        let Some(right) = right else { return Ok(None) };
        let Some(a) = a else { return Ok(None) };
        let part = match o {
            SideForm::Left => &left,
            SideForm::Right => &right,
        };
        if !self.is(types, p, part, &a)? {
            return Ok(None);
        }
        let made = either_of(self.alloc, &left, &right)?;
        Ok(self.unless_wide(types, p, made))
    }

    #[tactic(auto, using(typing_table::proofs::Equations::type_rules, crate::proofs::Noted::need_rules))]
    pub fn close_items(
        &mut self,
        types: &TypeTable,
        p: Pos,
        ts: Option<Items<TypeTerm>>,
    ) -> Result<Option<TypeTerm>, NoMemory>
        ensures { JudgedAs types.now self.old self.new result (with_all (opt_tys types.now.nodes ts) (λ us. own p (row_items us))) }
    {
        match ts {
            None => Ok(None),
            Some(us) => {
                match us.as_slice().split_first() {
                    None => {
                        let t = list_of(self.alloc, &TypeTerm::Base(Base::Unit))?;
                        Ok(self.unless_wide(types, p, t))
                    }
                    Some((first, rest)) => {
                        if self.all_are(types, p, first, rest)? {
                            let t = list_of(self.alloc, first)?;
                            Ok(self.unless_wide(types, p, t))
                        } else {
                            Ok(None)
                        }
                    }
                }
            }
        }
    }
}
