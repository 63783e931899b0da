ghost use Rattle.std.specs.Prelude.{◌≡◌};
ghost use Rattle.typing_table.specs.Meaning.{base_of, type_in};
ghost use Rattle.rules_typing.specs.TypingActions.{type_of_bare, row_unary_act, row_binary_act, row_throw, row_new_empty, row_scoped, row_masking, row_modify, row_guard, row_bracket, row_timeout, row_async};
ghost use Rattle.typing_judge.specs.Judging.{own, with1, with2};
ghost use Rattle.typing_parts.specs.Views.{opt_ty};
ghost use Rattle.typing_parts.specs.Judged.{Judged};
ghost use Rattle.typing_parts.specs.JudgedAs.{JudgedAs, content_row};

use crate::checker::Checker;
use crate::fault::Form;
use crate::parts::TypePart;
use hs_base::tree::forms::{
    BareAction, BinaryAction, BlockAction, GuardAction, MaskingAction, UnaryAction,
};
use hs_base::{NoMemory, Pos};
use typing_table::base::Base;
use typing_table::parts::inner_part;
use typing_table::table::TypeTable;
use typing_table::ty::{TypeTerm, async_of, cell_of, either_of, maybe_of, pair_of};

/// The type of an action without parts.
pub fn bare_type(o: BareAction) -> Base
    ensures { base_of result ≡ type_of_bare o }
{
    match o {
        BareAction::MyThreadId => Base::Thread,
        BareAction::ClockMicros => Base::Int,
        BareAction::GetMaskingState => Base::Text,
    }
}

#[tactic(auto, using(typing_table::proofs::Equations::type_rules))]
impl Checker {
    fn row_unary_act(
        &mut self,
        types: &TypeTable,
        p: Pos,
        o: UnaryAction,
        a: &TypeTerm,
    ) -> Result<Option<TypeTerm>, NoMemory>
        ensures { JudgedAs types.now self.old self.new result (own p (row_unary_act o (type_in types.now.nodes a.now))) }
    {
        match o {
            UnaryAction::Return => Ok(Some(a.copy(self.alloc)?)),
            UnaryAction::PutStr => self.one(types, p, Base::Text, a, Base::Unit),
            UnaryAction::PutStrLn => self.one(types, p, Base::Text, a, Base::Unit),
            UnaryAction::HPutStrLn => self.one(types, p, Base::Text, a, Base::Unit),
            UnaryAction::NewMVar => {
                let t = cell_of(self.alloc, a)?;
                Ok(self.unless_wide(types, p, t))
            }
            UnaryAction::TakeMVar => self.its_part(types, p, Form::Cell, TypePart::Inner, a),
            UnaryAction::ReadMVar => self.its_part(types, p, Form::Cell, TypePart::Inner, a),
            UnaryAction::TryTakeMVar => self.row_try_take(types, p, a),
            UnaryAction::KillThread => self.one(types, p, Base::Thread, a, Base::Unit),
            UnaryAction::ThreadDelay => self.one(types, p, Base::Int, a, Base::Unit),
            UnaryAction::Wait => self.its_part(types, p, Form::Async, TypePart::Inner, a),
            UnaryAction::Cancel => self.of_form(types, p, Form::Async, a, Base::Unit),
        }
    }

    fn row_try_take(
        &mut self,
        types: &TypeTable,
        p: Pos,
        a: &TypeTerm,
    ) -> Result<Option<TypeTerm>, NoMemory>
        ensures { JudgedAs types.now self.old self.new result (own p (row_unary_act UnaryAction.TryTakeMVar (type_in types.now.nodes a.now))) }
    {
        if !self.fits(types, p, Form::Cell, a)? {
            return Ok(None);
        }
        let part = inner_part(self.alloc, types, a)?;
        let t = maybe_of(self.alloc, &part)?;
        Ok(self.unless_wide(types, p, t))
    }

    fn row_binary_act(
        &mut self,
        types: &TypeTable,
        p: Pos,
        o: BinaryAction,
        a: &TypeTerm,
        b: &TypeTerm,
    ) -> Result<Option<TypeTerm>, NoMemory>
        ensures { JudgedAs types.now self.old self.new result (own p (row_binary_act o (type_in types.now.nodes a.now) (type_in types.now.nodes b.now))) }
    {
        match o {
            BinaryAction::PutMVar => self.row_content(types, p, a, b, Base::Unit),
            BinaryAction::TryPutMVar => self.row_content(types, p, a, b, Base::Bool),
            BinaryAction::ThrowTo => self.row_throw_to(types, p, a, b),
        }
    }

    fn row_throw_to(
        &mut self,
        types: &TypeTable,
        p: Pos,
        a: &TypeTerm,
        b: &TypeTerm,
    ) -> Result<Option<TypeTerm>, NoMemory>
        ensures { JudgedAs types.now self.old self.new result (own p (row_binary_act BinaryAction.ThrowTo (type_in types.now.nodes a.now) (type_in types.now.nodes b.now))) }
    {
        if !self.is_base(types, p, Base::Thread, a)? {
            return Ok(None);
        }
        self.one(types, p, Base::Exn, b, Base::Unit)
    }

    pub fn close_unary_act(
        &mut self,
        types: &TypeTable,
        p: Pos,
        o: UnaryAction,
        a: Option<TypeTerm>,
    ) -> Result<Option<TypeTerm>, NoMemory>
        ensures { JudgedAs types.now self.old self.new result (with1 (opt_ty types.now.nodes a) (λ u. own p (row_unary_act o u))) }
    {
        let Some(a) = a else { return Ok(None) };
        self.row_unary_act(types, p, o, &a)
    }

    pub fn close_binary_act(
        &mut self,
        types: &TypeTable,
        p: Pos,
        o: BinaryAction,
        a: Option<TypeTerm>,
        b: Option<TypeTerm>,
    ) -> Result<Option<TypeTerm>, NoMemory>
        ensures { JudgedAs types.now self.old self.new result (with2 (opt_ty types.now.nodes a) (opt_ty types.now.nodes b) (λ u v. own p (row_binary_act o u v))) }
    {
        let Some(a) = a else { return Ok(None) };
        let Some(b) = b else { return Ok(None) };
        self.row_binary_act(types, p, o, &a, &b)
    }

    pub fn close_throw(
        &mut self,
        types: &TypeTable,
        p: Pos,
        t: Option<TypeTerm>,
        a: Option<TypeTerm>,
    ) -> Result<Option<TypeTerm>, NoMemory>
        ensures { JudgedAs types.now self.old self.new result (with2 (opt_ty types.now.nodes t) (opt_ty types.now.nodes a) (λ u v. own p (row_throw u v))) }
    {
        let Some(t) = t else { return Ok(None) };
        let Some(a) = a else { return Ok(None) };
        if self.is_base(types, p, Base::Exn, &a)? {
            Ok(Some(t))
        } else {
            Ok(None)
        }
    }

    pub fn close_timeout(
        &mut self,
        types: &TypeTable,
        p: Pos,
        a: Option<TypeTerm>,
        b: Option<TypeTerm>,
    ) -> Result<Option<TypeTerm>, NoMemory>
        ensures { JudgedAs types.now self.old self.new result (with2 (opt_ty types.now.nodes a) (opt_ty types.now.nodes b) (λ u v. own p (row_timeout u v))) }
    {
        let Some(a) = a else { return Ok(None) };
        let Some(b) = b else { return Ok(None) };
        if !self.is_base(types, p, Base::Int, &a)? {
            return Ok(None);
        }
        let t = maybe_of(self.alloc, &b)?;
        Ok(self.unless_wide(types, p, t))
    }

    pub fn close_new_empty(
        &mut self,
        types: &TypeTable,
        p: Pos,
        t: Option<TypeTerm>,
    ) -> Result<Option<TypeTerm>, NoMemory>
        ensures { JudgedAs types.now self.old self.new result (with1 (opt_ty types.now.nodes t) (λ u. own p (row_new_empty u))) }
    {
        let Some(t) = t else { return Ok(None) };
        let made = cell_of(self.alloc, &t)?;
        Ok(self.unless_wide(types, p, made))
    }

    pub fn close_scoped(
        &mut self,
        types: &TypeTable,
        p: Pos,
        o: BlockAction,
        a: Option<TypeTerm>,
    ) -> Result<Option<TypeTerm>, NoMemory>
        ensures { JudgedAs types.now self.old self.new result (with1 (opt_ty types.now.nodes a) (λ u. own p (row_scoped o u))) }
    {
        let Some(a) = a else { return Ok(None) };
        match o {
            BlockAction::ForkIo => self.one(types, p, Base::Unit, &a, Base::Thread),
            BlockAction::MaskOnly => Ok(Some(a)),
            BlockAction::UninterruptibleMaskOnly => Ok(Some(a)),
        }
    }

    pub fn close_masking(
        &mut self,
        types: &TypeTable,
        p: Pos,
        o: MaskingAction,
        a: Option<TypeTerm>,
    ) -> Result<Option<TypeTerm>, NoMemory>
        ensures { JudgedAs types.now self.old self.new result (with1 (opt_ty types.now.nodes a) (λ u. own p (row_masking o u))) }
    {
        let Some(a) = a else { return Ok(None) };
        match o {
            MaskingAction::ForkIoWithUnmask => self.one(types, p, Base::Unit, &a, Base::Thread),
            MaskingAction::Mask => Ok(Some(a)),
            MaskingAction::UninterruptibleMask => Ok(Some(a)),
        }
    }

    /// The block of a modification of a cell of type `m`: it gives the cell's content.
    pub fn close_modify(
        &mut self,
        types: &TypeTable,
        p: Pos,
        m: &TypeTerm,
        a: Option<TypeTerm>,
    ) -> Result<Option<TypeTerm>, NoMemory>
        ensures { JudgedAs types.now self.old self.new result (with1 (opt_ty types.now.nodes a) (λ v. own p (row_modify (type_in types.now.nodes m.now) v))) }
    {
        let Some(a) = a else { return Ok(None) };
        let part = inner_part(self.alloc, types, m)?;
        self.of_type(types, p, &part, &a, Base::Unit)
    }

    /// The first block's type, or one of both.
    fn row_guard(
        &mut self,
        types: &TypeTable,
        p: Pos,
        o: GuardAction,
        a: TypeTerm,
        b: &TypeTerm,
    ) -> Result<Option<TypeTerm>, NoMemory>
        ensures { JudgedAs types.now self.old self.new result (own p (row_guard o (type_in types.now.nodes a) (type_in types.now.nodes b.now))) }
    {
        match o {
            GuardAction::OnException => Ok(Some(a)),
            GuardAction::Finally => Ok(Some(a)),
            GuardAction::Race => {
                let t = either_of(self.alloc, &a, b)?;
                Ok(self.unless_wide(types, p, t))
            }
            GuardAction::Concurrently => {
                let t = pair_of(self.alloc, &a, b)?;
                Ok(self.unless_wide(types, p, t))
            }
        }
    }

    pub fn close_guard(
        &mut self,
        types: &TypeTable,
        p: Pos,
        o: GuardAction,
        a: Option<TypeTerm>,
        b: Option<TypeTerm>,
    ) -> Result<Option<TypeTerm>, NoMemory>
        ensures { JudgedAs types.now self.old self.new result (with2 (opt_ty types.now.nodes a) (opt_ty types.now.nodes b) (λ u v. own p (row_guard o u v))) }
    {
        let Some(a) = a else { return Ok(None) };
        let Some(b) = b else { return Ok(None) };
        self.row_guard(types, p, o, a, &b)
    }

    /// What a `withAsync` binds, where the action that runs beside its block has type `a`.
    pub fn scope_type(
        &mut self,
        types: &TypeTable,
        p: Pos,
        a: &TypeTerm,
    ) -> Result<Option<TypeTerm>, NoMemory>
        ensures { JudgedAs types.now self.old self.new result (own p (row_async (type_in types.now.nodes a.now))) }
    {
        let t = async_of(self.alloc, a)?;
        Ok(self.unless_wide(types, p, t))
    }

    /// The type of the block that uses, where both have one.
    pub fn close_bracket(
        &mut self,
        _types: &TypeTable,
        p: Pos,
        a: Option<TypeTerm>,
        b: Option<TypeTerm>,
    ) -> Option<TypeTerm>
        ensures { Judged _types.now.nodes self.old self.new (opt_ty _types.now.nodes result) (with2 (opt_ty _types.now.nodes a) (opt_ty _types.now.nodes b) (λ u v. own p (row_bracket u v))) }
    {
        let _ = a?;
        b
    }

    /// A cell of some type, and a value of that type.
    fn row_content(
        &mut self,
        types: &TypeTable,
        p: Pos,
        a: &TypeTerm,
        b: &TypeTerm,
        t: Base,
    ) -> Result<Option<TypeTerm>, NoMemory>
        ensures { JudgedAs types.now self.old self.new result (own p (content_row (type_in types.now.nodes a.now) (type_in types.now.nodes b.now) (base_of t))) }
    {
        if !self.fits(types, p, Form::Cell, a)? {
            return Ok(None);
        }
        let part = inner_part(self.alloc, types, a)?;
        self.of_type(types, p, &part, b, t)
    }
}
