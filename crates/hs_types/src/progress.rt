ghost use Rattle.std.specs.Prelude.{◌≡◌, [], None, Some, OnOk, map};
ghost use Rattle.rules_expansion.specs.trees.Programs.{par_of, bd_of, fn_of};
ghost use Rattle.rules_typing.specs.TypingSizes.{param_names, worst_body};
ghost use Rattle.rules_typing.specs.TypingScripts.{unmeasured, fn_extent, head_faults, none_of};
ghost use Rattle.typing_judge.specs.JudgingScripts.{def_faults, is_far};
ghost use Rattle.typing_judge.specs.Least.{least};
ghost use Rattle.typing_parts.specs.Views.{broken_of, scope_of};
ghost use Rattle.typing_parts.specs.Contexts.{ctx_of};
ghost use Rattle.typing_extents.specs.Measuring.{ext_of, MeasuredAs};
ghost use Rattle.hs_types.specs.Steps.{Advanced, measured_of, of_call, Counted, AdvancedAll, Sized};

use crate::definition::{Judgement, judge};
use hs_base::tree::{Body, Def, Param};
use hs_base::{NoMemory, Pos};
use hs_items::Items;
use std::alloc::Global;
use typing_extents::meter::{Extent, Meter, nothing};
use typing_extents::sizes::{add, body_nodes};
use typing_parts::first::{Broken, First};
use typing_parts::funs::Funs;
use typing_parts::table::Table;
use typing_table::table::TypeTable;

/// The first broken rule of the definitions so far, how far calls of them unfold, and their expanded sizes together.
#[derive(Drop)]
pub struct Progress {
    pub first: First,
    pub meter: Meter,
    pub total: u32,
}

/// Binds the parameters.
fn bind_params(meter: &mut Meter, alloc: Global, ps: &Items<Param>) -> Result<(), NoMemory>
    ensures { OnOk result ((scope_of [] meter.new.scope.items ≡ param_names (scope_of [] meter.old.scope.items) (map par_of ps.now)) × (meter.new.extents ≡ meter.old.extents)) }
{
    'each: for p in ps.as_slice() {
        meter.bind(alloc, &p.name)?;
    }
    Ok(())
}

/// How far the greatest expression of a body unfolds.
fn extent_of_body(
    meter: &mut Meter,
    alloc: Global,
    funs: &Funs,
    b: &Body,
) -> Result<Extent, NoMemory>
    ensures { MeasuredAs funs.now meter.old meter.new result (λ gs xs s. worst_body gs xs s (bd_of b.now)) }
{
    match b {
        Body::Pure(_, e) => {
            let x = meter.extent(alloc, funs, e)?;
            Ok(x)
        }
        Body::Action(_, b) => {
            let x = meter.block(alloc, funs, b)?;
            Ok(x)
        }
    }
}

/// How far the greatest expression of a definition unfolds.
fn unfolded(meter: &mut Meter, alloc: Global, funs: &Funs, d: &Def) -> Result<Extent, NoMemory>
    requires { scope_of [] meter.old.scope.items ≡ [] }
    ensures { MeasuredAs funs.now meter.old meter.new result (λ gs xs s. worst_body gs xs (param_names [] (fn_of d.now).params) (fn_of d.now).body) }
{
    bind_params(meter, alloc, &d.params)?;
    let x = extent_of_body(meter, alloc, funs, &d.body)?;
    meter.scope.back_to(0);
    Ok(x)
}

/// How far a call unfolds, by how far the greatest expression of the body does.
fn called(b: &Body, x: Extent) -> Extent
    ensures { ext_of result ≡ of_call (bd_of b.now) (ext_of x) }
{
    match b {
        Body::Pure(_, _) => x,
        Body::Action(_, _) => nothing(),
    }
}

/// How far a call of a broken definition unfolds. An action function isn't called in expressions, so its body, which
/// may have names without end, isn't gone through.
fn extent_of_call(
    meter: &mut Meter,
    alloc: Global,
    funs: &Funs,
    d: &Def,
    head: bool,
) -> Result<Extent, NoMemory>
    requires scope { scope_of [] meter.old.scope.items ≡ [] }
    requires head { head ≡ none_of (head_faults (fn_of d.now)) }
    ensures { MeasuredAs funs.now meter.old meter.new result (λ gs xs s. fn_extent gs xs (fn_of d.now)) }
{
    match &d.body {
        Body::Action(_, _) => Ok(nothing()),
        Body::Pure(_, _) => {
            if !head {
                return Ok(nothing());
            }
            let x = unfolded(meter, alloc, funs, d)?;
            Ok(x)
        }
    }
}

fn is_far(x: Extent) -> bool
    ensures { result ≡ is_far (ext_of x) }
{
    x.size > 100_000 || x.height > 1_000
}

impl Progress {
    /// Before the first definition.
    pub fn new(alloc: Global) -> Progress
        ensures { (result.first.fault ≡ None) × (scope_of [] result.meter.scope.items ≡ []) × (measured_of result ≡ unmeasured) }
    {
        Progress {
            first: First::new(),
            meter: Meter {
                scope: Table::new(alloc),
                extents: Items::new(alloc),
            },
            total: 0,
        }
    }

    /// Adds how far a call of a definition unfolds, and its expanded size.
    fn count(&mut self, x: Extent, b: &Body) -> Result<(), NoMemory>
        ensures { OnOk result (Counted self.old self.new x (bd_of b.now)) }
    {
        self.total = add(self.total, body_nodes(b));
        self.meter.extents.add(x)?;
        Ok(())
    }

    /// Notes where the definition at `p` is too large: its greatest expression, or all sizes up to and with it.
    fn check_size(&mut self, types: &TypeTable, p: Pos, x: Extent)
        ensures { Sized types.now.nodes self.old self.new p x }
    {
        if is_far(x) || self.total > 1_000_000 {
            self.first.note(types, Broken::Large(p));
        }
    }

    /// Measures a definition in which no other rule is broken.
    fn add_sound(&mut self, alloc: Global, funs: &Funs, d: &Def) -> Result<(), NoMemory>
        requires scope { scope_of [] self.old.meter.scope.items ≡ [] }
        requires sound { least None (def_faults (ctx_of funs.now) (fn_of d.now)) ≡ None }
        ensures { OnOk result (Advanced funs.now.types.nodes self.old self.new (ctx_of funs.now) (fn_of d.now)) }
    {
        let x = unfolded(&mut self.meter, alloc, funs, d)?;
        self.count(called(&d.body, x), &d.body)?;
        self.check_size(&funs.types, d.name.pos, x);
        Ok(())
    }

    /// Measures a definition in which `f` is the first broken rule.
    fn add_broken(
        &mut self,
        alloc: Global,
        funs: &Funs,
        d: &Def,
        f: Broken,
        head: bool,
    ) -> Result<(), NoMemory>
        requires scope { scope_of [] self.old.meter.scope.items ≡ [] }
        requires first { least None (def_faults (ctx_of funs.now) (fn_of d.now)) ≡ Some (broken_of funs.now.types.nodes f) }
        requires head { head ≡ none_of (head_faults (fn_of d.now)) }
        ensures { OnOk result (Advanced funs.now.types.nodes self.old self.new (ctx_of funs.now) (fn_of d.now)) }
    {
        self.first.note(&funs.types, f);
        let x = extent_of_call(&mut self.meter, alloc, funs, d, head)?;
        self.count(x, &d.body)?;
        Ok(())
    }

    /// Judges and measures a definition.
    fn definition(&mut self, alloc: Global, funs: &Funs, d: &Def) -> Result<(), NoMemory>
        requires { scope_of [] self.old.meter.scope.items ≡ [] }
        ensures { OnOk result (Advanced funs.now.types.nodes self.old self.new (ctx_of funs.now) (fn_of d.now)) }
    {
        let Judgement { fault, head } = judge(alloc, funs, d)?;
        match fault {
            None => {
                self.add_sound(alloc, funs, d)?;
                Ok(())
            }
            Some(f) => {
                self.add_broken(alloc, funs, d, f, head)?;
                Ok(())
            }
        }
    }

    /// Judges and measures the definitions in order.
    pub fn definitions(
        &mut self,
        alloc: Global,
        funs: &mut Funs,
        ds: &Items<Def>,
    ) -> Result<(), NoMemory>
        requires { scope_of [] self.old.meter.scope.items ≡ [] }
        ensures { OnOk result (AdvancedAll funs.old funs.new self.old self.new (map fn_of ds.now)) }
    {
        'each: for (i, d) in ds.as_slice().iter().enumerate() {
            funs.here = i;
            self.definition(alloc, funs, d)?;
        }
        Ok(())
    }
}
