//! Actions and blocks: a function for each form, in which its fixed pieces stand, and the walk down a tree.
ghost use Rattle.std.specs.Prelude.{◌≡◌, ◌++◌, OnOk, codes, string_bytes};
ghost use Rattle.rules_expansion.specs.trees.Trees.{ex_of, exs_of, wr_of};
ghost use Rattle.rules_expansion.specs.trees.Programs.{Bl, act_of, bl_of, stmt_of, act_arms_of};
ghost use Rattle.haskell_module.specs.Names.{name_text};
ghost use Rattle.haskell_module.specs.Types.{type_text};
ghost use Rattle.haskell_module.specs.Forms.{applied, applied_two, applied_three, lambda, bound, bound_two, in_thread, choice, case_of, arms_of_maybe, arms_of_either, arms_of_list, arms_of_pair, line, last_line, binding, block_of};
ghost use Rattle.haskell_module.specs.Expressions.{ex_text, arguments};
ghost use Rattle.haskell_module.specs.Actions.{throw_text, new_empty_text, act_call_text, scoped_text, masking_text, guard_text, act_pos, act_text, bl_text, lines, act_arms_text};

use crate::exprs::{write_applied, write_applied_two, write_arguments, write_part};
use crate::names::write_name;
use crate::pieces::{
    bare_text, binary_act_word, put, unary_act_word, write_arm, write_binding, write_lambda,
    write_point,
};
use crate::types::write_type;
use hs_base::Pos;
use hs_base::tree::forms::{BlockAction, GuardAction, MaskingAction};
use hs_base::tree::{Action, Block, BlockArms, Expr, Name, Stmt, Written};
use hs_items::Items;
use std::alloc::AllocError;

/// The position of an action: its first word, or the name of a call.
#[tactic(auto, using(rules_expansion::proofs::trees_lemmas::EquationsOfActions::act_rules))]
fn position(action: &Action) -> Pos
    ensures { result ≡ act_pos (act_of action.now) }
{
    match action {
        Action::Bare(_, p) => *p,
        Action::Unary(_, p, _) => *p,
        Action::Binary(_, p, _, _) => *p,
        Action::ThrowIo(p, _, _) => *p,
        Action::NewEmptyMVar(p, _) => *p,
        Action::Call(f, _) => f.pos,
        Action::If(p, _, _, _) => *p,
        Action::Case(p, _, _) => *p,
        Action::ModifyMVar(p, _, _, _) => *p,
        Action::Scoped(_, p, _) => *p,
        Action::Masking(_, p, _, _) => *p,
        Action::Restore(p, _, _) => *p,
        Action::Catch(p, _, _, _) => *p,
        Action::Guard(_, p, _, _) => *p,
        Action::Bracket(p, _, _, _, _) => *p,
        Action::Timeout(p, _, _) => *p,
        Action::WithAsync(p, _, _, _) => *p,
    }
}

/// An action.
#[cycle(actions)]
#[tactic(auto, using(rules_expansion::proofs::trees_lemmas::EquationsOfActions::act_rules))]
fn write_action(text: &mut String, action: &Action) -> Result<(), AllocError>
    ensures { OnOk result (string_bytes text.new ≡ string_bytes text.old ++ act_text (act_of action.now)) }
{
    match action {
        Action::Bare(form, _) => put(text, bare_text(*form)),
        Action::Unary(form, _, e) => write_applied(text, unary_act_word(*form), e),
        Action::Binary(form, _, e, f) => write_applied_two(text, binary_act_word(*form), e, f),
        Action::ThrowIo(_, ty, e) => write_throw(text, ty, e),
        Action::NewEmptyMVar(_, ty) => write_new_empty(text, ty),
        Action::Call(f, es) => write_call(text, f, es),
        Action::If(_, e, a, b) => write_choice(text, a, b, e),
        Action::Case(_, e, arms) => write_case(text, arms.get(), e),
        Action::ModifyMVar(_, e, x, a) => write_modify(text, a, e, x),
        Action::Scoped(form, _, a) => write_scoped(text, *form, a),
        Action::Masking(form, _, x, a) => write_masking(text, *form, x, a),
        Action::Restore(_, x, a) => write_restore(text, x, a),
        Action::Catch(_, a, x, b) => write_catch(text, a, x, b),
        Action::Guard(form, _, a, b) => write_guard(text, *form, a, b),
        Action::Bracket(_, a, x, b, d) => write_bracket(text, a, x, b, d),
        Action::Timeout(_, e, a) => write_timeout(text, a, e),
        Action::WithAsync(_, a, x, b) => write_with_async(text, a, x, b),
    }
}

// ---- forms without blocks

#[tactic(auto, unfolding(crate::specs::Actions::throw_text, crate::specs::Forms::typed))]
fn write_throw(text: &mut String, ty: &Written, e: &Expr) -> Result<(), AllocError>
    ensures { OnOk result (string_bytes text.new ≡ string_bytes text.old ++ throw_text (ex_text (ex_of e.now)) (type_text (wr_of ty.now).ty)) }
{
    write_part(text, "(throwIO ", e)?;
    put(text, " :: IO ")?;
    write_type(text, &ty.ty)?;
    put(text, ")")
}

#[tactic(auto, unfolding(crate::specs::Actions::new_empty_text, crate::specs::Forms::typed))]
fn write_new_empty(text: &mut String, ty: &Written) -> Result<(), AllocError>
    ensures { OnOk result (string_bytes text.new ≡ string_bytes text.old ++ new_empty_text (type_text (wr_of ty.now).ty)) }
{
    put(text, "(newEmptyMVar :: IO (MVar ")?;
    write_type(text, &ty.ty)?;
    put(text, "))")
}

#[tactic(auto, unfolding(crate::specs::Actions::act_call_text))]
fn write_call(text: &mut String, f: &Name, es: &Items<Expr>) -> Result<(), AllocError>
    ensures { OnOk result (string_bytes text.new ≡ string_bytes text.old ++ act_call_text f.now.text (arguments (exs_of es.now))) }
{
    put(text, "(")?;
    write_name(text, &f.text)?;
    put(text, " en")?;
    write_arguments(text, es)?;
    put(text, ")")
}

// ---- blocks

#[cycle(actions)]
#[tactic(auto, unfolding(crate::specs::Forms::block_of))]
pub(crate) fn write_block(text: &mut String, block: &Block) -> Result<(), AllocError>
    ensures { OnOk result (string_bytes text.new ≡ string_bytes text.old ++ bl_text (bl_of block.now)) }
{
    put(text, "(do {\n")?;
    write_lines(text, block)?;
    put(text, "})")
}

#[cycle(actions)]
#[tactic(auto, using(rules_expansion::proofs::trees_lemmas::EquationsOfActions::bl_is))]
fn write_lines(text: &mut String, block: &Block) -> Result<(), AllocError>
    ensures { OnOk result (string_bytes text.new ≡ string_bytes text.old ++ lines (bl_of block.now)) }
{
    'stmts: for stmt in block.stmts.as_slice() {
        write_stmt(text, stmt)?;
    }
    write_last(text, block.last.get())
}

/// A statement, in front of any rest of its block.
#[cycle(actions)]
fn write_stmt(text: &mut String, stmt: &Stmt) -> Result<(), AllocError>
    ensures { OnOk result ((rest : Bl) → string_bytes text.new ++ lines rest ≡ string_bytes text.old ++ lines (stmt_of stmt.now rest)) }
{
    match stmt {
        Stmt::Do(action) => write_line(text, action),
        Stmt::Bind(x, action) => write_bind(text, x, action),
        Stmt::Let(x, e) => write_let(text, x, e),
    }
}

#[cycle(actions)]
#[tactic(auto, unfolding(crate::specs::Forms::line))]
fn write_line(text: &mut String, action: &Action) -> Result<(), AllocError>
    ensures { OnOk result (string_bytes text.new ≡ string_bytes text.old ++ line (act_pos (act_of action.now)) (act_text (act_of action.now))) }
{
    write_point(text, "at", position(action))?;
    write_action(text, action)?;
    put(text, ";\n")
}

#[cycle(actions)]
fn write_bind(text: &mut String, x: &Name, action: &Action) -> Result<(), AllocError>
    ensures { OnOk result (string_bytes text.new ≡ string_bytes text.old ++ (binding x.now.text ++ line (act_pos (act_of action.now)) (act_text (act_of action.now)))) }
{
    write_binding(text, &x.text)?;
    write_line(text, action)
}

#[tactic(auto, unfolding(crate::specs::Forms::line))]
fn write_let(text: &mut String, x: &Name, e: &Expr) -> Result<(), AllocError>
    ensures { OnOk result (string_bytes text.new ≡ string_bytes text.old ++ (binding x.now.text ++ line x.now.pos (applied (codes "evaluate") (ex_text (ex_of e.now))))) }
{
    write_binding(text, &x.text)?;
    write_point(text, "at", x.pos)?;
    write_applied(text, "evaluate", e)?;
    put(text, ";\n")
}

#[cycle(actions)]
#[tactic(auto, unfolding(crate::specs::Forms::last_line))]
fn write_last(text: &mut String, action: &Action) -> Result<(), AllocError>
    ensures { OnOk result (string_bytes text.new ≡ string_bytes text.old ++ last_line (act_pos (act_of action.now)) (act_text (act_of action.now))) }
{
    write_point(text, "end", position(action))?;
    write_action(text, action)
}

// ---- blocks as parts

/// A piece, and a block behind it.
#[cycle(actions)]
fn write_body(text: &mut String, before: &str, block: &Block) -> Result<(), AllocError>
    ensures { OnOk result (string_bytes text.new ≡ string_bytes text.old ++ (before.now ++ bl_text (bl_of block.now))) }
{
    put(text, before)?;
    write_block(text, block)
}

#[cycle(actions)]
#[tactic(auto, unfolding(crate::specs::Forms::bound))]
fn write_bound(text: &mut String, x: &Name, block: &Block) -> Result<(), AllocError>
    ensures { OnOk result (string_bytes text.new ≡ string_bytes text.old ++ bound x.now.text (bl_text (bl_of block.now))) }
{
    put(text, "(")?;
    write_lambda(text, &x.text)?;
    write_block(text, block)?;
    put(text, ")")
}

#[cycle(actions)]
#[tactic(auto, unfolding(crate::specs::Forms::bound_two))]
fn write_bound_two(text: &mut String, x: &Name, y: &Name, block: &Block) -> Result<(), AllocError>
    ensures { OnOk result (string_bytes text.new ≡ string_bytes text.old ++ bound_two x.now.text y.now.text (bl_text (bl_of block.now))) }
{
    put(text, "(")?;
    write_lambda(text, &x.text)?;
    write_lambda(text, &y.text)?;
    write_block(text, block)?;
    put(text, ")")
}

/// A block that a thread of its own runs.
#[cycle(actions)]
#[tactic(auto, unfolding(crate::specs::Forms::in_thread))]
fn write_in_thread(text: &mut String, block: &Block) -> Result<(), AllocError>
    ensures { OnOk result (string_bytes text.new ≡ string_bytes text.old ++ in_thread (bl_text (bl_of block.now))) }
{
    write_body(text, "(\\ en -> ", block)?;
    put(text, ")")
}

/// The same where the block has a name for what unmasks it.
#[cycle(actions)]
#[tactic(auto, unfolding(crate::specs::Forms::in_thread))]
fn write_unmasking(text: &mut String, x: &Name, block: &Block) -> Result<(), AllocError>
    ensures { OnOk result (string_bytes text.new ≡ string_bytes text.old ++ in_thread (lambda x.now.text ++ bl_text (bl_of block.now))) }
{
    put(text, "(\\ en -> ")?;
    write_lambda(text, &x.text)?;
    write_block(text, block)?;
    put(text, ")")
}

// ---- forms with one block

#[cycle(actions)]
#[tactic(auto, unfolding(crate::specs::Forms::applied))]
fn write_around(text: &mut String, word: &str, block: &Block) -> Result<(), AllocError>
    ensures { OnOk result (string_bytes text.new ≡ string_bytes text.old ++ applied word.now (bl_text (bl_of block.now))) }
{
    put(text, "(")?;
    put(text, word)?;
    write_body(text, " ", block)?;
    put(text, ")")
}

#[cycle(actions)]
#[tactic(auto, unfolding(crate::specs::Forms::applied))]
fn write_around_bound(
    text: &mut String,
    word: &str,
    x: &Name,
    block: &Block,
) -> Result<(), AllocError>
    ensures { OnOk result (string_bytes text.new ≡ string_bytes text.old ++ applied word.now (bound x.now.text (bl_text (bl_of block.now)))) }
{
    put(text, "(")?;
    put(text, word)?;
    put(text, " ")?;
    write_bound(text, x, block)?;
    put(text, ")")
}

#[cycle(actions)]
#[tactic(auto, unfolding(crate::specs::Forms::applied))]
fn write_fork(text: &mut String, block: &Block) -> Result<(), AllocError>
    ensures { OnOk result (string_bytes text.new ≡ string_bytes text.old ++ applied (codes "forkIO en") (in_thread (bl_text (bl_of block.now)))) }
{
    put(text, "(forkIO en ")?;
    write_in_thread(text, block)?;
    put(text, ")")
}

#[cycle(actions)]
#[tactic(auto, unfolding(crate::specs::Forms::applied))]
fn write_fork_unmasking(text: &mut String, x: &Name, block: &Block) -> Result<(), AllocError>
    ensures { OnOk result (string_bytes text.new ≡ string_bytes text.old ++ applied (codes "forkIOWithUnmask en") (in_thread (lambda x.now.text ++ bl_text (bl_of block.now)))) }
{
    put(text, "(forkIOWithUnmask en ")?;
    write_unmasking(text, x, block)?;
    put(text, ")")
}

#[cycle(actions)]
fn write_scoped(text: &mut String, form: BlockAction, block: &Block) -> Result<(), AllocError>
    ensures { OnOk result (string_bytes text.new ≡ string_bytes text.old ++ scoped_text form (bl_text (bl_of block.now))) }
{
    match form {
        BlockAction::ForkIo => write_fork(text, block),
        BlockAction::MaskOnly => write_around(text, "mask_", block),
        BlockAction::UninterruptibleMaskOnly => {
            write_around(text, "uninterruptibleMask_", block)
        }
    }
}

#[cycle(actions)]
fn write_masking(
    text: &mut String,
    form: MaskingAction,
    x: &Name,
    block: &Block,
) -> Result<(), AllocError>
    ensures { OnOk result (string_bytes text.new ≡ string_bytes text.old ++ masking_text form x.now.text (bl_text (bl_of block.now))) }
{
    match form {
        MaskingAction::ForkIoWithUnmask => write_fork_unmasking(text, x, block),
        MaskingAction::Mask => write_around_bound(text, "mask", x, block),
        MaskingAction::UninterruptibleMask => {
            write_around_bound(text, "uninterruptibleMask", x, block)
        }
    }
}

#[cycle(actions)]
#[tactic(auto, unfolding(crate::specs::Forms::applied))]
fn write_restore(text: &mut String, x: &Name, block: &Block) -> Result<(), AllocError>
    ensures { OnOk result (string_bytes text.new ≡ string_bytes text.old ++ applied (name_text x.now.text) (bl_text (bl_of block.now))) }
{
    put(text, "(")?;
    write_name(text, &x.text)?;
    write_body(text, " ", block)?;
    put(text, ")")
}

#[cycle(actions)]
#[tactic(auto, unfolding(crate::specs::Forms::applied_two))]
fn write_modify(text: &mut String, block: &Block, e: &Expr, x: &Name) -> Result<(), AllocError>
    ensures { OnOk result (string_bytes text.new ≡ string_bytes text.old ++ applied_two (codes "modifyMVar_") (ex_text (ex_of e.now)) (bound x.now.text (bl_text (bl_of block.now)))) }
{
    write_part(text, "(modifyMVar_ ", e)?;
    put(text, " ")?;
    write_bound(text, x, block)?;
    put(text, ")")
}

#[cycle(actions)]
#[tactic(auto, unfolding(crate::specs::Forms::applied_two))]
fn write_timeout(text: &mut String, block: &Block, e: &Expr) -> Result<(), AllocError>
    ensures { OnOk result (string_bytes text.new ≡ string_bytes text.old ++ applied_two (codes "timeout en") (ex_text (ex_of e.now)) (bl_text (bl_of block.now))) }
{
    write_part(text, "(timeout en ", e)?;
    write_body(text, " ", block)?;
    put(text, ")")
}

// ---- forms with several blocks

#[cycle(actions)]
#[tactic(auto, unfolding(crate::specs::Forms::choice))]
fn write_choice(text: &mut String, a: &Block, b: &Block, e: &Expr) -> Result<(), AllocError>
    ensures { OnOk result (string_bytes text.new ≡ string_bytes text.old ++ choice (ex_text (ex_of e.now)) (bl_text (bl_of a.now)) (bl_text (bl_of b.now))) }
{
    write_part(text, "(if ", e)?;
    write_body(text, " then ", a)?;
    write_body(text, " else ", b)?;
    put(text, ")")
}

#[cycle(actions)]
#[tactic(auto, unfolding(crate::specs::Forms::applied_two))]
fn write_catch(text: &mut String, a: &Block, x: &Name, b: &Block) -> Result<(), AllocError>
    ensures { OnOk result (string_bytes text.new ≡ string_bytes text.old ++ applied_two (codes "catch") (bl_text (bl_of a.now)) (bound x.now.text (bl_text (bl_of b.now)))) }
{
    write_body(text, "(catch ", a)?;
    put(text, " ")?;
    write_bound(text, x, b)?;
    put(text, ")")
}

#[cycle(actions)]
#[tactic(auto, unfolding(crate::specs::Forms::applied_two))]
fn write_both(text: &mut String, word: &str, a: &Block, b: &Block) -> Result<(), AllocError>
    ensures { OnOk result (string_bytes text.new ≡ string_bytes text.old ++ applied_two word.now (bl_text (bl_of a.now)) (bl_text (bl_of b.now))) }
{
    put(text, "(")?;
    put(text, word)?;
    write_body(text, " ", a)?;
    write_body(text, " ", b)?;
    put(text, ")")
}

#[cycle(actions)]
#[tactic(auto, unfolding(crate::specs::Forms::applied_two))]
fn write_both_in_threads(
    text: &mut String,
    word: &str,
    a: &Block,
    b: &Block,
) -> Result<(), AllocError>
    ensures { OnOk result (string_bytes text.new ≡ string_bytes text.old ++ applied_two word.now (in_thread (bl_text (bl_of a.now))) (in_thread (bl_text (bl_of b.now)))) }
{
    put(text, "(")?;
    put(text, word)?;
    put(text, " ")?;
    write_in_thread(text, a)?;
    put(text, " ")?;
    write_in_thread(text, b)?;
    put(text, ")")
}

#[cycle(actions)]
fn write_guard(text: &mut String, form: GuardAction, a: &Block, b: &Block) -> Result<(), AllocError>
    ensures { OnOk result (string_bytes text.new ≡ string_bytes text.old ++ guard_text form (bl_text (bl_of a.now)) (bl_text (bl_of b.now))) }
{
    match form {
        GuardAction::OnException => write_both(text, "onException", a, b),
        GuardAction::Finally => write_both(text, "finally", a, b),
        GuardAction::Race => write_both_in_threads(text, "race en", a, b),
        GuardAction::Concurrently => write_both_in_threads(text, "concurrently en", a, b),
    }
}

#[cycle(actions)]
#[tactic(auto, unfolding(crate::specs::Forms::applied_three))]
fn write_bracket(
    text: &mut String,
    a: &Block,
    x: &Name,
    b: &Block,
    d: &Block,
) -> Result<(), AllocError>
    ensures { OnOk result (string_bytes text.new ≡ string_bytes text.old ++ applied_three (codes "bracket") (bl_text (bl_of a.now)) (bound x.now.text (bl_text (bl_of b.now))) (bound x.now.text (bl_text (bl_of d.now)))) }
{
    write_body(text, "(bracket ", a)?;
    put(text, " ")?;
    write_bound(text, x, b)?;
    put(text, " ")?;
    write_bound(text, x, d)?;
    put(text, ")")
}

#[cycle(actions)]
#[tactic(auto, unfolding(crate::specs::Forms::applied_two))]
fn write_with_async(text: &mut String, a: &Block, x: &Name, b: &Block) -> Result<(), AllocError>
    ensures { OnOk result (string_bytes text.new ≡ string_bytes text.old ++ applied_two (codes "withAsync en") (in_thread (bl_text (bl_of a.now))) (bound x.now.text (bl_text (bl_of b.now)))) }
{
    put(text, "(withAsync en ")?;
    write_in_thread(text, a)?;
    put(text, " ")?;
    write_bound(text, x, b)?;
    put(text, ")")
}

// ---- arms

#[cycle(actions)]
#[tactic(auto, unfolding(crate::specs::Forms::case_of))]
fn write_case(text: &mut String, arms: &BlockArms, e: &Expr) -> Result<(), AllocError>
    ensures { OnOk result (string_bytes text.new ≡ string_bytes text.old ++ case_of (ex_text (ex_of e.now)) (act_arms_text (act_arms_of arms.now))) }
{
    write_part(text, "(case ", e)?;
    put(text, " of {")?;
    write_arms(text, arms)?;
    put(text, "})")
}

#[cycle(actions)]
#[tactic(auto, using(rules_expansion::proofs::trees_lemmas::EquationsOfActions::act_arms_rules))]
fn write_arms(text: &mut String, arms: &BlockArms) -> Result<(), AllocError>
    ensures { OnOk result (string_bytes text.new ≡ string_bytes text.old ++ act_arms_text (act_arms_of arms.now)) }
{
    match arms {
        BlockArms::OfMaybe(a, x, b) => write_maybe_arms(text, a, x, b),
        BlockArms::OfEither(x, a, y, b) => write_either_arms(text, x, a, y, b),
        BlockArms::OfList(a, x, y, b) => write_list_arms(text, a, x, y, b),
        BlockArms::OfPair(x, y, a) => write_pair_arm(text, x, y, a),
    }
}

#[cycle(actions)]
#[tactic(auto, unfolding(crate::specs::Forms::arms_of_maybe))]
fn write_maybe_arms(text: &mut String, a: &Block, x: &Name, b: &Block) -> Result<(), AllocError>
    ensures { OnOk result (string_bytes text.new ≡ string_bytes text.old ++ arms_of_maybe (bl_text (bl_of a.now)) x.now.text (bl_text (bl_of b.now))) }
{
    write_body(text, "Nothing -> ", a)?;
    write_arm(text, "; Just ", &x.text)?;
    write_block(text, b)
}

#[cycle(actions)]
#[tactic(auto, unfolding(crate::specs::Forms::arms_of_either))]
fn write_either_arms(
    text: &mut String,
    x: &Name,
    a: &Block,
    y: &Name,
    b: &Block,
) -> Result<(), AllocError>
    ensures { OnOk result (string_bytes text.new ≡ string_bytes text.old ++ arms_of_either x.now.text (bl_text (bl_of a.now)) y.now.text (bl_text (bl_of b.now))) }
{
    write_arm(text, "Left ", &x.text)?;
    write_block(text, a)?;
    write_arm(text, "; Right ", &y.text)?;
    write_block(text, b)
}

#[cycle(actions)]
#[tactic(auto, unfolding(crate::specs::Forms::arms_of_list))]
fn write_list_arms(
    text: &mut String,
    a: &Block,
    x: &Name,
    y: &Name,
    b: &Block,
) -> Result<(), AllocError>
    ensures { OnOk result (string_bytes text.new ≡ string_bytes text.old ++ arms_of_list (bl_text (bl_of a.now)) x.now.text y.now.text (bl_text (bl_of b.now))) }
{
    write_body(text, "[] -> ", a)?;
    put(text, "; a : b -> ")?;
    write_bound_two(text, x, y, b)?;
    put(text, " a b")
}

#[cycle(actions)]
#[tactic(auto, unfolding(crate::specs::Forms::arms_of_pair))]
fn write_pair_arm(text: &mut String, x: &Name, y: &Name, a: &Block) -> Result<(), AllocError>
    ensures { OnOk result (string_bytes text.new ≡ string_bytes text.old ++ arms_of_pair x.now.text y.now.text (bl_text (bl_of a.now))) }
{
    put(text, "(a, b) -> ")?;
    write_bound_two(text, x, y, a)?;
    put(text, " a b")
}
