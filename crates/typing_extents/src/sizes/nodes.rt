ghost use Rattle.std.specs.Prelude.{◌≡◌, ◌+◌, min};
ghost use Rattle.rules_expansion.specs.trees.Trees.{ex_of, exs_of, arms_of, links_of, sum_links_of, list_links_of};
ghost use Rattle.rules_expansion.specs.trees.Programs.{Bl, act_of, bl_of, stmt_of, act_arms_of, bd_of};
ghost use Rattle.rules_expansion.specs.Core.{CoreEx, Core};
ghost use Rattle.rules_expansion.specs.Expansion.{unary_core, scoped_core, guard_core, core, block_core, arms_core};
ghost use Rattle.rules_expansion.specs.Sizes.{ex_size, exs_size, links_size, arms_size, core_ex_size, core_size, body_size};

use crate::sizes::count::add;
use crate::sizes::derived::{NO_BLOCK, NO_EXPRESSION, derived_nodes};
use hs_base::tree::forms::{BinaryForm, BlockAction, GuardAction, UnaryAction};
use hs_base::tree::{
    Action, Block, BlockArms, Body, Expr, ExprArms, Link, ListLink, Stmt, SumLink,
};
use hs_items::Items;
use rules_expansion::{BlockRow, Derived, UnaryRow, block_row, guard_row, unary_row};

/// The nodes of an expression.
#[cycle(nodes)]
#[tactic(auto, using(rules_expansion::proofs::trees_lemmas::Equations::ex_rules))]
fn ex_nodes(e: &Expr) -> u32
    ensures { result ≡ min (ex_size (ex_of e.now)) 1000001 }
{
    match e {
        Expr::Int(_, _) => 1,
        Expr::Text(_, _) => 1,
        Expr::Constant(_, _) => 1,
        Expr::Unit(_) => 1,
        Expr::Empty(_, _, _) => 1,
        Expr::Unary(_, _, a) => over(a.get()),
        Expr::Side(_, _, _, _, a) => over(a.get()),
        Expr::Compare(a, _, _, b) => over_two(b.get(), ex_nodes(a.get())),
        Expr::Div(_, a, b) => over_two(b.get(), ex_nodes(a.get())),
        Expr::Mod(_, a, b) => over_two(b.get(), ex_nodes(a.get())),
        Expr::Pair(_, a, b) => over_two(b.get(), ex_nodes(a.get())),
        Expr::Let(_, _, a, b) => over_two(b.get(), ex_nodes(a.get())),
        Expr::If(_, c, a, b) => over_two(b.get(), add(ex_nodes(c.get()), ex_nodes(a.get()))),
        Expr::Or(a, ks) => add(ex_nodes(a.get()), link_nodes(BinaryForm::Or, ks)),
        Expr::And(a, ks) => add(ex_nodes(a.get()), link_nodes(BinaryForm::And, ks)),
        Expr::Product(a, ks) => add(ex_nodes(a.get()), link_nodes(BinaryForm::Times, ks)),
        Expr::Sum(a, ks) => add(ex_nodes(a.get()), sum_link_nodes(ks)),
        Expr::Cons(a, ks) => add(ex_nodes(a.get()), list_link_nodes(ks)),
        Expr::Call(_, es) => add(1, exs_nodes(es)),
        Expr::List(_, es) => add(1, exs_nodes(es)),
        Expr::Case(_, a, arms) => add(1, add(ex_nodes(a.get()), arm_nodes(arms.get()))),
    }
}

/// A node over an expression.
#[cycle(nodes)]
fn over(a: &Expr) -> u32
    ensures { result ≡ min (1 + ex_size (ex_of a.now)) 1000001 }
{
    add(1, ex_nodes(a))
}

/// A node over two parts, of which the first has `n` nodes.
#[cycle(nodes)]
fn over_two(b: &Expr, n: u32) -> u32
    ensures { result ≡ min (1 + n + ex_size (ex_of b.now)) 1000001 }
{
    add(1, add(n, ex_nodes(b)))
}

#[cycle(nodes)]
fn exs_nodes(es: &Items<Expr>) -> u32
    ensures { result ≡ min (exs_size (exs_of es.now)) 1000001 }
{
    let mut n = 0;
    'parts: for e in es.as_slice() {
        n = add(n, ex_nodes(e));
    }
    n
}

#[cycle(nodes)]
fn link_nodes(o: BinaryForm, ks: &Items<Link>) -> u32
    ensures { result ≡ min (links_size (links_of o ks.now)) 1000001 }
{
    let mut n = 0;
    'links: for k in ks.as_slice() {
        n = add(n, add(1, ex_nodes(&k.operand)));
    }
    n
}

#[cycle(nodes)]
fn sum_link_nodes(ks: &Items<SumLink>) -> u32
    ensures { result ≡ min (links_size (sum_links_of ks.now)) 1000001 }
{
    let mut n = 0;
    'links: for k in ks.as_slice() {
        n = add(n, add(1, ex_nodes(&k.operand)));
    }
    n
}

#[cycle(nodes)]
fn list_link_nodes(ks: &Items<ListLink>) -> u32
    ensures { result ≡ min (links_size (list_links_of ks.now)) 1000001 }
{
    let mut n = 0;
    'links: for k in ks.as_slice() {
        n = add(n, add(1, ex_nodes(&k.operand)));
    }
    n
}

#[cycle(nodes)]
#[tactic(auto, using(rules_expansion::proofs::trees_lemmas::Equations::arms_rules))]
fn arm_nodes(arms: &ExprArms) -> u32
    ensures { result ≡ min (arms_size (arms_of arms.now)) 1000001 }
{
    match arms {
        ExprArms::OfMaybe(a, _, b) => add(ex_nodes(a), ex_nodes(b)),
        ExprArms::OfEither(_, a, _, b) => add(ex_nodes(a), ex_nodes(b)),
        ExprArms::OfList(a, _, _, b) => add(ex_nodes(a), ex_nodes(b)),
        ExprArms::OfPair(_, _, a) => ex_nodes(a),
    }
}

/// The nodes of an action's expansion.
#[cycle(actions)]
#[tactic(auto, using(rules_expansion::proofs::trees_lemmas::EquationsOfActions::act_rules))]
fn act_nodes(a: &Action) -> u32
    ensures { result ≡ min (core_size (core (act_of a.now))) 1000001 }
{
    match a {
        Action::Bare(_, _) => 1,
        Action::Unary(w, _, e) => unary_nodes(*w, ex_nodes(e)),
        Action::Binary(_, _, e, f) => over_two(f, ex_nodes(e)),
        Action::ThrowIo(_, _, e) => over(e),
        Action::NewEmptyMVar(_, _) => 1,
        Action::Call(_, es) => add(1, exs_nodes(es)),
        Action::If(_, e, b, d) => add(1, add(ex_nodes(e), add(bl_nodes(b), bl_nodes(d)))),
        Action::Case(_, e, arms) => add(1, add(ex_nodes(e), act_arm_nodes(arms.get()))),
        Action::ModifyMVar(_, e, _, b) => {
            let n = bl_nodes(b);
            derived_nodes(Derived::ModifyMVar, ex_nodes(e), n, n, n)
        }
        Action::Scoped(w, _, b) => scoped_nodes(*w, bl_nodes(b)),
        Action::Masking(_, _, _, b) => over_block(b),
        Action::Restore(_, _, b) => over_block(b),
        Action::Catch(_, b, _, d) => add(1, add(bl_nodes(b), bl_nodes(d))),
        Action::Guard(w, _, b, d) => guard_nodes(*w, bl_nodes(b), bl_nodes(d)),
        Action::Bracket(_, b, _, d, h) => {
            derived_nodes(
                Derived::Bracket,
                NO_EXPRESSION,
                bl_nodes(b),
                bl_nodes(d),
                bl_nodes(h),
            )
        }
        Action::Timeout(_, e, b) => {
            let n = bl_nodes(b);
            derived_nodes(Derived::Timeout, ex_nodes(e), n, n, n)
        }
        Action::WithAsync(_, b, _, d) => {
            let n = bl_nodes(d);
            derived_nodes(Derived::WithAsync, NO_EXPRESSION, bl_nodes(b), n, n)
        }
    }
}

/// A word over an expression of `n` nodes.
fn unary_nodes(w: UnaryAction, n: u32) -> u32
    ensures { (e : CoreEx) → n ≡ min (core_ex_size e) 1000001 → result ≡ min (core_size (unary_core w e)) 1000001 }
{
    match unary_row(w) {
        UnaryRow::Return | UnaryRow::Perform(_) => add(1, n),
        // `throwTo` with the exception `ThreadKilled`
        UnaryRow::Kill => add(1, add(n, 1)),
        UnaryRow::Derived(form) => derived_nodes(form, n, NO_BLOCK, NO_BLOCK, NO_BLOCK),
    }
}

/// A word over a block of `n` nodes.
fn scoped_nodes(w: BlockAction, n: u32) -> u32
    ensures { (a : Core) → n ≡ min (core_size a) 1000001 → result ≡ min (core_size (scoped_core w a)) 1000001 }
{
    match block_row(w) {
        BlockRow::Fork => add(1, n),
        BlockRow::Derived(form) => derived_nodes(form, NO_EXPRESSION, n, n, n),
    }
}

/// A word over two blocks, of `m` nodes and of `n`.
fn guard_nodes(w: GuardAction, m: u32, n: u32) -> u32
    ensures { (a c : Core) → m ≡ min (core_size a) 1000001 → n ≡ min (core_size c) 1000001 → result ≡ min (core_size (guard_core w a c)) 1000001 }
{
    derived_nodes(guard_row(w), NO_EXPRESSION, m, n, n)
}

/// A node over a block.
#[cycle(actions)]
fn over_block(b: &Block) -> u32
    ensures { result ≡ min (1 + core_size (block_core (bl_of b.now))) 1000001 }
{
    add(1, bl_nodes(b))
}

/// What the arms add to a `case` of an expression.
#[cycle(actions)]
#[tactic(auto, using(rules_expansion::proofs::trees_lemmas::EquationsOfActions::act_arms_rules))]
fn act_arm_nodes(arms: &BlockArms) -> u32
    ensures { (e : CoreEx) → min (core_size (arms_core e (act_arms_of arms.now))) 1000001 ≡ min (1 + core_ex_size e + result) 1000001 }
{
    match arms {
        BlockArms::OfMaybe(a, _, b) => add(bl_nodes(a), bl_nodes(b)),
        BlockArms::OfEither(_, a, _, b) => add(bl_nodes(a), bl_nodes(b)),
        BlockArms::OfList(a, _, _, b) => add(bl_nodes(a), bl_nodes(b)),
        BlockArms::OfPair(_, _, a) => bl_nodes(a),
    }
}

/// What a statement adds to the block behind it.
#[cycle(actions)]
#[tactic(auto, using(rules_expansion::proofs::trees_lemmas::EquationsOfActions::stmt_rules))]
fn stmt_nodes(st: &Stmt) -> u32
    ensures { (rest : Bl) → min (core_size (block_core (stmt_of st.now rest))) 1000001 ≡ min (result + core_size (block_core rest)) 1000001 }
{
    match st {
        Stmt::Do(a) => add(1, act_nodes(a)),
        Stmt::Bind(_, a) => add(1, act_nodes(a)),
        Stmt::Let(_, e) => add(1, ex_nodes(e)),
    }
}

#[cycle(actions)]
#[tactic(auto, using(rules_expansion::proofs::trees_lemmas::EquationsOfActions::bl_is))]
fn bl_nodes(b: &Block) -> u32
    ensures { result ≡ min (core_size (block_core (bl_of b.now))) 1000001 }
{
    let mut n = 0;
    'stmts: for st in b.stmts.as_slice() {
        n = add(n, stmt_nodes(st));
    }
    add(n, act_nodes(b.last.get()))
}

/// The expanded size of a body.
pub fn body_nodes(b: &Body) -> u32
    ensures { result ≡ min (body_size (bd_of b.now)) 1000001 }
{
    match b {
        Body::Pure(_, e) => ex_nodes(e),
        Body::Action(_, b) => bl_nodes(b),
    }
}
