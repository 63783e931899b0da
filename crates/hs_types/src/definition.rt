ghost use Rattle.std.specs.Prelude.{◌≡◌, ◌∷◌, [], None, IfOk, OnOk};
ghost use Rattle.rules_expansion.specs.trees.Trees.{wr_of};
ghost use Rattle.rules_expansion.specs.trees.Programs.{bd_of, fn_of};
ghost use Rattle.rules_typing.specs.Typing.{bound};
ghost use Rattle.rules_typing.specs.TypingScripts.{params_in, wide_faults, head_faults, twice_faults, none_of};
ghost use Rattle.typing_judge.specs.Judging.{with1};
ghost use Rattle.typing_judge.specs.JudgingScripts.{judge_body, ends, def_faults};
ghost use Rattle.typing_judge.specs.Least.{least};
ghost use Rattle.typing_parts.specs.Views.{kept_of, opt_ty};
ghost use Rattle.typing_parts.specs.Contexts.{ctx_of};
ghost use Rattle.typing_parts.specs.Judged.{names, kept};
ghost use Rattle.hs_types.specs.Heads.{Entered, ParamEntered, ParamsEntered, HeadEntered, body_found};
ghost use Rattle.typing_parts.specs.JudgedAs.{JudgedIn};

use hs_base::NoMemory;
use hs_base::tree::{Body, Def, Name, Param, Written};
use hs_items::Items;
use std::alloc::Global;
use typing_parts::checker::Checker;
use typing_parts::first::{Broken, First};
use typing_parts::funs::Funs;
use typing_parts::heads::written_of;
use typing_parts::table::Table;
use typing_table::table::TypeTable;
use typing_table::ty::TypeTerm;
use typing_table::widths::is_wide_written;
use typing_table::written::from_written;
use typing_walk::actions::type_of_block;
use typing_walk::exprs::type_of;

/// What a definition breaks first, `Large` aside, and whether its head is sound.
#[derive(Drop)]
pub struct Judgement {
    pub fault: Option<Broken>,
    pub head: bool,
}

/// Notes where a written type is too wide.
#[tactic(auto, using(typing_parts::proofs::ScriptSteps::script_rules))]
fn check_width(checker: &mut Checker, types: &TypeTable, w: &Written) -> bool
    ensures { Entered types.now.nodes checker.old checker.new result (names types.now.nodes checker.old) (wide_faults (wr_of w.now)) }
{
    if is_wide_written(&w.ty) {
        checker.first.note(types, Broken::Wide(w.pos));
        false
    } else {
        true
    }
}

/// Notes where an earlier definition has the name.
#[tactic(auto, using(typing_parts::proofs::ScriptSteps::script_rules))]
fn check_once(checker: &mut Checker, funs: &Funs, x: &Name)
    ensures { (names funs.now.types.nodes checker.new ≡ names funs.now.types.nodes checker.old) × (kept funs.now.types.nodes checker.new ≡ least (kept funs.now.types.nodes checker.old) (twice_faults (ctx_of funs.now) x.now)) }
{
    match funs.find(&x.text) {
        None => {}
        Some(f) => {
            if f.place < funs.here {
                checker.first.note(&funs.types, Broken::Twice(x.pos));
            }
        }
    }
}

/// Binds a name to a written type.
fn bind_written(
    checker: &mut Checker,
    types: &TypeTable,
    x: &Name,
    w: &Written,
) -> Result<(), NoMemory>
    ensures { OnOk result ((names types.now.nodes checker.new ≡ bound x.now (wr_of w.now).ty ∷ names types.now.nodes checker.old) × (kept types.now.nodes checker.new ≡ kept types.now.nodes checker.old)) }
{
    let t = from_written(checker.alloc, &w.ty)?;
    checker.bind(types, x, t)
}

/// Binds a parameter, and says whether it is sound.
#[tactic(auto, using(typing_parts::proofs::ScriptSteps::script_rules))]
fn param(checker: &mut Checker, types: &TypeTable, p: &Param) -> Result<bool, NoMemory>
    ensures { IfOk result (λ b. ParamEntered types.now.nodes checker.old checker.new b p.now) }
{
    let narrow = check_width(checker, types, &p.ty);
    let full = checker.is_full(types);
    checker.check_room(types, &p.name);
    bind_written(checker, types, &p.name, &p.ty)?;
    Ok(narrow && !full)
}

/// Binds the parameters, and says whether each is sound.
#[tactic(auto, using(typing_parts::proofs::ScriptSteps::script_rules))]
fn params(checker: &mut Checker, types: &TypeTable, ps: &Items<Param>) -> Result<bool, NoMemory>
    ensures { IfOk result (λ b. ParamsEntered types.now.nodes checker.old checker.new b ps.now) }
{
    let mut sound = true;
    'each: for p in ps.as_slice() {
        let one = param(checker, types, p)?;
        sound = sound && one;
    }
    Ok(sound)
}

/// The name and the head of a definition; it says whether the head is sound.
#[tactic(auto, using(typing_parts::proofs::ScriptSteps::script_rules))]
fn head(checker: &mut Checker, funs: &Funs, d: &Def) -> Result<bool, NoMemory>
    requires { names funs.now.types.nodes checker.old ≡ [] }
    ensures { IfOk result (λ b. HeadEntered funs.now checker.old checker.new b d.now) }
{
    check_once(checker, funs, &d.name);
    let a = params(checker, &funs.types, &d.params)?;
    let b = check_width(checker, &funs.types, written_of(&d.body));
    Ok(a && b)
}

/// The type of a body, where it has one.
fn type_of_body(checker: &mut Checker, funs: &Funs, b: &Body) -> Result<Option<TypeTerm>, NoMemory>
    ensures { JudgedIn funs.now checker.old checker.new result (λ c s. judge_body c s (bd_of b.now)) }
{
    match b {
        Body::Pure(_, e) => {
            let t = type_of(checker, funs, e)?;
            Ok(t)
        }
        Body::Action(_, b) => {
            let t = type_of_block(checker, funs, b)?;
            Ok(t)
        }
    }
}

/// Notes where the type of the body isn't the declared one.
fn check_result(
    checker: &mut Checker,
    types: &TypeTable,
    x: &Name,
    w: &Written,
    t: Option<TypeTerm>,
) -> Result<(), NoMemory>
    ensures { OnOk result (kept types.now.nodes checker.new ≡ least (kept types.now.nodes checker.old) (with1 (opt_ty types.now.nodes t) (ends x.now (wr_of w.now))).faults) }
{
    match t {
        None => Ok(()),
        Some(t) => {
            let want = from_written(checker.alloc, &w.ty)?;
            checker.is(types, x.pos, &want, &t)?;
            Ok(())
        }
    }
}

/// The body of a definition whose head is sound.
#[tactic(auto, using(typing_parts::proofs::ScriptSteps::script_rules))]
fn tail(checker: &mut Checker, funs: &Funs, d: &Def) -> Result<(), NoMemory>
    requires { names funs.now.types.nodes checker.old ≡ params_in [] (fn_of d.now).params }
    ensures { OnOk result (kept funs.now.types.nodes checker.new ≡ least (kept funs.now.types.nodes checker.old) (body_found (ctx_of funs.now) d.now).faults) }
{
    let t = type_of_body(checker, funs, &d.body)?;
    check_result(checker, &funs.types, &d.name, written_of(&d.body), t)?;
    Ok(())
}

fn fault_in(checker: Checker) -> Option<Broken>
    ensures { result ≡ checker.first.fault }
{
    let Checker {
        alloc: _,
        scope: _,
        first,
    } = checker;
    let First { fault } = first;
    fault
}

/// What a definition breaks first, `Large` aside.
#[tactic(auto, using(typing_parts::proofs::ScriptSteps::script_rules))]
pub fn judge(alloc: Global, funs: &Funs, d: &Def) -> Result<Judgement, NoMemory>
    ensures { IfOk result (λ j. (kept_of funs.now.types.nodes j.fault ≡ least None (def_faults (ctx_of funs.now) (fn_of d.now))) × (j.head ≡ none_of (head_faults (fn_of d.now)))) }
{
    let mut checker = Checker {
        alloc,
        scope: Table::new(alloc),
        first: First::new(),
    };
    let sound = head(&mut checker, funs, d)?;
    if sound {
        tail(&mut checker, funs, d)?;
    }
    Ok(Judgement {
        fault: fault_in(checker),
        head: sound,
    })
}
