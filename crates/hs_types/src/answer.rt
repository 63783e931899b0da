ghost use Rattle.std.specs.Prelude.{◌≡◌, None, Some, IfOk};
ghost use Rattle.rules_expansion.specs.trees.Programs.{script_of};
ghost use Rattle.rules_typing.specs.TypingScripts.{sigs_from};
ghost use Rattle.typing_judge.specs.JudgingScripts.{script_faults};
ghost use Rattle.typing_judge.specs.Least.{least};
ghost use Rattle.typing_parts.specs.Views.{asked_of, broken_of, kept_of, sigs_of, wanted_of};
ghost use Rattle.hs_types.specs.Faults.{told};
ghost use Rattle.hs_types.specs.Answers.{IsAnswer};

use crate::progress::Progress;
use hs_base::NoMemory;
use hs_base::tree::Script;
use std::alloc::Global;
use typing_parts::first::{Asked, Broken, First};
use typing_parts::funs::Funs;
use typing_parts::heads::{has_main, heads_of};
use typing_parts::{TypeFault, Want};
use typing_table::table::TypeTable;
use typing_table::written::to_written;

/// What the rules say of a script.
#[derive(Drop)]
pub enum Answer {
    /// Nothing is broken, and there is a `main`.
    Sound,
    /// Nothing is broken, and there is no `main`.
    NoMain,
    /// The first broken rule.
    Broken(TypeFault),
}

fn first_fault(progress: Progress) -> Option<Broken>
    ensures { result ≡ progress.first.fault }
{
    let Progress {
        first,
        meter: _,
        total: _,
    } = progress;
    let First { fault } = first;
    fault
}

/// The first broken rule of a script, where there is one.
fn first_broken(alloc: Global, funs: &mut Funs, script: &Script) -> Result<Option<Broken>, NoMemory>
    requires { sigs_of funs.old.types.nodes funs.old.sigs ≡ sigs_from 0 (script_of script.now) }
    ensures { IfOk result (λ f. (kept_of funs.old.types.nodes f ≡ least None (script_faults (script_of script.now))) × (funs.new.types ≡ funs.old.types) × (funs.new.sigs ≡ funs.old.sigs)) }
{
    let mut progress = Progress::new(alloc);
    progress.definitions(alloc, funs, &script.defs)?;
    Ok(first_fault(progress))
}

/// What was asked of a part, as it is answered.
fn wanted(alloc: Global, types: &TypeTable, asked: &Asked) -> Result<Want, NoMemory>
    ensures { IfOk result (λ w. wanted_of w ≡ asked_of types.now.nodes asked.now) }
{
    match asked {
        Asked::Exactly(t) => Ok(Want::Exactly(to_written(alloc, types, t)?)),
        Asked::Form(form) => Ok(Want::Form(*form)),
    }
}

/// A broken rule as it is answered.
fn refusal(alloc: Global, types: &TypeTable, f: Broken) -> Result<TypeFault, NoMemory>
    ensures { IfOk result (λ r. told r ≡ Some (broken_of types.now.nodes f)) }
{
    match f {
        Broken::Twice(pos) => Ok(TypeFault::Twice(pos)),
        Broken::Unknown(pos) => Ok(TypeFault::Unknown(pos)),
        Broken::Kind(pos) => Ok(TypeFault::Kind(pos)),
        Broken::Forward(pos) => Ok(TypeFault::Forward(pos)),
        Broken::Arity(pos, want, got) => Ok(TypeFault::Arity { pos, want, got }),
        Broken::Mismatch(pos, asked, found) => {
            let want = wanted(alloc, types, &asked)?;
            let got = to_written(alloc, types, &found)?;
            Ok(TypeFault::Mismatch { pos, want, got })
        }
        Broken::Scope(pos) => Ok(TypeFault::Scope(pos)),
        Broken::Wide(pos) => Ok(TypeFault::Wide(pos)),
        Broken::Large(pos) => Ok(TypeFault::Large(pos)),
    }
}

/// What the rules say of a script.
pub fn judge_script(alloc: Global, script: &Script) -> Result<Answer, NoMemory>
    ensures { IfOk result (λ a. IsAnswer a script.now) }
{
    let heads = heads_of(alloc, &script.defs)?;
    let mut funs = Funs::new(alloc, heads)?;
    match first_broken(alloc, &mut funs, script)? {
        Some(f) => Ok(Answer::Broken(refusal(alloc, &funs.types, f)?)),
        None => {
            if has_main(alloc, &funs)? {
                Ok(Answer::Sound)
            } else {
                Ok(Answer::NoMain)
            }
        }
    }
}
