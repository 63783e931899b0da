//! From an accepted script to its code.
ghost use Rattle.std.specs.Prelude.{◌≡◌, ◌++◌, [], IfOk, OnOk, slice_get, codes};
ghost use Rattle.rules_expansion.specs.trees.Trees.{ex_of};
ghost use Rattle.rules_expansion.specs.trees.Programs.{fn_of, script_of, bl_of};
ghost use Rattle.rules_code.specs.Slots.{roots_of, slotted};
ghost use Rattle.rules_expansion.specs.Expansion.{actions_of};
ghost use Rattle.rules_code.specs.Codes.{body_of};
ghost use Rattle.hs_nodes.specs.Standing.{Known};
ghost use Rattle.hs_core.specs.Numbering.{index_among};
ghost use Rattle.hs_core.specs.Placing.{written, Functions, main_id};
ghost use Rattle.hs_core.specs.Placing as form;

use crate::defs::{Defs, counted};
use crate::emitter::ActEmitter;
use crate::pending::back_to;
use hs_base::tree::{Def, Param, Script};
use hs_base::{Block, Body, Expr, NoMemory, Txt};
use hs_items::Items;
use hs_nodes::names::{ScopedName, bind};
use hs_nodes::{Emitter, Place, Places};
use rules_code::{ActId, Code, CodeBody, ExprId, Fun};
use rules_typing::Checked;
use std::alloc::Global;
use std::snapshot::Snapshot;

/// Puts the names of parameters on.
fn bind_params(
    scope: &mut Items<ScopedName>,
    alloc: Global,
    params: &Items<Param>,
) -> Result<(), NoMemory>
    ensures { OnOk result (scope.new ≡ scope.old ++ written params.now) }
{
    'params: for param in params.as_slice() {
        bind(scope, alloc, &param.name.text)?;
    }
    Ok(())
}

/// The nodes of a pure function's body.
fn pure_body(
    emitter: &mut Emitter,
    alloc: Global,
    places: &Places,
    params: &Items<Param>,
    e: &Expr,
) -> Result<ExprId, NoMemory>
    ensures { IfOk result (λ id. form.PureBody places.now.all emitter.old emitter.new id params.now (ex_of e.now)) }
{
    let count = emitter.scope.len();
    bind_params(&mut emitter.scope, alloc, params)?;
    let id = emitter.expr(alloc, places, e)?;
    back_to(&mut emitter.scope, count);
    Ok(id)
}

/// The places with that of a definition, where it is a pure function.
fn place(
    emitter: &mut Emitter,
    alloc: Global,
    places: Places,
    def: &Def,
) -> Result<Places, NoMemory>
    ensures { IfOk result (λ more. form.Places emitter.old emitter.new places.all more.all (fn_of def.now)) }
{
    match &def.body {
        Body::Pure(_, e) => {
            let node = pure_body(emitter, alloc, &places, &def.params, e)?;
            let text = def.name.text.copy(alloc)?;
            let params = def.params.len();
            let more = places.add(alloc, Place { text, params, node })?;
            Ok(more)
        }
        Body::Action(_, _) => Ok(places),
    }
}

/// The places of the pure functions of a script.
fn places(emitter: &mut Emitter, alloc: Global, script: &Script) -> Result<Places, NoMemory>
    ensures { IfOk result (λ ps. (emitter.old.nodes ≡ []) → (emitter.old.scope ≡ []) → Known emitter.new.nodes ps.all (roots_of (script_of script.now)) × (emitter.new.scope ≡ [])) }
{
    let mut places = Places::new(alloc);
    'defs: for def in script.defs.as_slice() {
        places = place(emitter, alloc, places, def)?;
    }
    Ok(places)
}

impl ActEmitter {
    ghost use Rattle.std.specs.Prelude.{◌≡◌, IfOk, OnOk, length, List, [], ◌∷◌};
    ghost use Rattle.rules_expansion.specs.trees.Programs.{fn_of, script_of, bl_of};
    ghost use Rattle.hs_nodes.specs.Names.{scope_after};
    ghost use Rattle.hs_core.specs.Defining.{Knows};
    ghost use Rattle.hs_core.specs.Emits.{Emits};
    ghost use Rattle.hs_core.specs.Opening.{block_tree};
    ghost use Rattle.hs_core.specs.Placing.{written, Functions};

    /// The body of an action function.
    fn action_body(
        &mut self,
        alloc: Global,
        defs: &Defs,
        params: &Items<Param>,
        b: &Block,
    ) -> Result<ActId, NoMemory>
        ensures { IfOk result (λ id. Emits (Knows self.old.emitter.nodes defs.now) self.old self.new id (λ s. block_tree defs.now (scope_after s (written params.now)) (bl_of b.now))) }
    {
        let count = self.emitter.scope.len();
        bind_params(&mut self.emitter.scope, alloc, params)?;
        let id = self.block(alloc, defs, b)?;
        back_to(&mut self.emitter.scope, count);
        Ok(id)
    }

    /// A definition, where it is an action function.
    fn function(
        &mut self,
        alloc: Global,
        defs: &Defs,
        funs: &mut Items<Fun>,
        def: &Def,
    ) -> Result<(), NoMemory>
        ensures { OnOk result (Functions defs.now self.old self.new funs.old funs.new (fn_of def.now ∷ [])) }
    {
        match &def.body {
            Body::Pure(_, _) => Ok(()),
            Body::Action(_, b) => {
                let body = self.action_body(alloc, defs, &def.params, b)?;
                let params = counted(def.params.len())?;
                funs.add(Fun { params, body })?;
                Ok(())
            }
        }
    }

    /// The action functions of a script.
    fn functions(
        &mut self,
        alloc: Global,
        defs: &Defs,
        script: &Script,
    ) -> Result<Items<Fun>, NoMemory>
        ensures { IfOk result (λ fs. Functions defs.now self.old self.new [] fs (script_of script.now)) }
    {
        let mut funs = Items::new(alloc);
        'each: for def in script.defs.as_slice() {
            self.function(alloc, defs, &mut funs, def)?;
        }
        Ok(funs)
    }
}

/// The number of `main`'s body.
fn main_of(alloc: Global, defs: &Defs, funs: &Items<Fun>, acts: usize) -> Result<ActId, NoMemory>
    ensures { IfOk result (λ id. id ≡ main_id (slice_get funs.now (index_among defs.now.actions (codes "main"))) acts) }
{
    let name = Txt::of(alloc, "main")?;
    let index = defs.index(&name);
    match funs.as_slice().get(index) {
        Some(f) => Ok(f.body),
        None => Ok(ActId(acts)),
    }
}

/// The code of an accepted script, which names the script.
pub fn expand(alloc: Global, checked: &Checked) -> Result<Code, NoMemory>
    ensures { IfOk result (λ code. (body_of code).of.value ≡ checked.now.script) }
{
    let script = &checked.script;
    let mut emitter = Emitter {
        nodes: Items::new(alloc),
        scope: Items::new(alloc),
    };
    let places = places(&mut emitter, alloc, script)?;
    let defs = Defs::of(alloc, script, places)?;
    let mut emitter = ActEmitter {
        emitter,
        acts: Items::new(alloc),
    };
    let funs = emitter.functions(alloc, &defs, script)?;
    let main = main_of(alloc, &defs, &funs, emitter.acts.len())?;
    let ActEmitter { emitter, acts } = emitter;
    let Emitter { nodes, scope: _ } = emitter;
    let of = Snapshot::of(script);
    let code = Code::new(
        alloc,
        CodeBody {
            nodes,
            acts,
            funs,
            main,
            of,
        },
    )?;
    Ok(code)
}
