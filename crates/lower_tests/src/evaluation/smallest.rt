//! That the premise of `eval` can be met: the smallest code, and what its one expression gives.
ghost use Rattle.std.specs.Prelude.{◌≡◌, IfOk, [], ◌∷◌};
ghost use Rattle.hs_base.specs.declared.tree.action.Action.TheVariants as a;
ghost use Rattle.hs_base.specs.declared.tree.expr.Expr.TheVariants as e;
ghost use Rattle.hs_base.specs.declared.tree.forms.UnaryAction.TheVariants as u;
ghost use Rattle.rules_code.specs.Codes.{body_of};
ghost use Rattle.lower_tests.specs.evaluation.SmallestCode.{smallest_script, smallest_nodes};

use hs_base::tree::forms::UnaryAction;
use hs_base::tree::{Action, Block, Body, Def, Expr, Name, Script, Ty, Written};
use hs_base::{NoMemory, Pos, Txt, Value};
use hs_eval::{Outcome, eval};
use hs_items::{Boxed, Items};
use rules_code::{Act, ActId, Code, CodeBody, ExprId, Fun, Node};
use std::alloc::Global;
use std::snapshot::Snapshot;
use std::test::Fail;

/// A list of one item.
fn only<T: Drop>(alloc: Global, item: T) -> Result<Items<T>, NoMemory>
    ensures { IfOk result (λ items. items ≡ item ∷ []) }
{
    let mut items = Items::new(alloc);
    items.add(item)?;
    Ok(items)
}

/// `{ return () }`
fn main_block(alloc: Global, pos: Pos) -> Result<Block, NoMemory>
    ensures { IfOk result (λ b. b ≡ record { stmts = []; last = a.Unary u.Return pos (e.Unit pos) }) }
{
    let last = Boxed::new(
        alloc,
        Action::Unary(UnaryAction::Return, pos, Expr::Unit(pos)),
    )?;
    Ok(Block {
        stmts: Items::new(alloc),
        last,
    })
}

/// `main :: IO () = { return () }`
fn main_script(alloc: Global, pos: Pos) -> Result<Script, NoMemory>
    ensures { IfOk result (λ s. s ≡ smallest_script pos) }
{
    let block = main_block(alloc, pos)?;
    let text = Txt::of(alloc, "main")?;
    let def = Def {
        name: Name { text, pos },
        params: Items::new(alloc),
        body: Body::Action(Written { ty: Ty::Unit, pos }, block),
    };
    let defs = only(alloc, def)?;
    Ok(Script { defs })
}

/// The smallest code.
fn smallest_code(alloc: Global) -> Result<Code, NoMemory>
    ensures { IfOk result (λ code. (body_of code).nodes ≡ smallest_nodes) }
{
    let script = main_script(alloc, Pos { line: 1, col: 1 })?;
    let nodes = only(alloc, Node::Unit)?;
    let acts = only(alloc, Act::Return(ExprId(0)))?;
    let body = ActId(0);
    let funs = only(alloc, Fun { params: 0, body })?;
    let of = Snapshot::of(&script);
    Code::new(
        alloc,
        CodeBody {
            nodes,
            acts,
            funs,
            main: body,
            of,
        },
    )
}

#[test]
fn eval_gives_what_the_smallest_code_returns(rt: HostRuntime) -> Result<(), Fail> {
    let code = smallest_code(rt.alloc())?;
    let outcome = eval(rt.alloc(), &code, ExprId(0), &Items::new(rt.alloc()))?;
    assert!(rt; matches!(&outcome, Outcome::Value(Value::Unit)));
    Ok(())
}
