ghost use Rattle.std.specs.Prelude.{◌≡◌, [], ◌∷◌, ◌++◌, IfOk, IfSome, OnOk, OnErr, ◌≤◌, ◌<◌, ◌^◌, length, slice_get};
ghost use Rattle.std.specs.Option.{option_copied};
ghost use Rattle.rules_meaning.specs.Values.{values_of, Gives, Truth};
ghost use Rattle.rules_code.specs.Slots.{run, tree_at};
ghost use Rattle.hs_eval.specs.Founds.{out_of};
ghost use Rattle.local_steps.specs.environments.Envs.{base_of};

use crate::environments::copied::{copied, few, joined, shared};
use crate::environments::spare::Spare;
use crate::environments::waiting::Waiting;
use hs_base::{NoMemory, Value, Values};
use hs_eval::{Found, eval_at, test_at};
use hs_items::{Items, Shared};
use rules_code::{ExprId, Node};
use std::alloc::Global;
use std::marker::Model;
use std::mem;

/// So many values an environment keeps to itself before it shares them, so that a copy costs a constant.
const OWN: usize = 8;

/// The values of an action's slots, the first bound first.
pub struct Env {
    /// The first values, which copies share.
    base: Option<Shared<Values>>,
    /// The values behind those.
    own: Values,
}

// Written out, so that it is proved once, here, and not in each function above that lets one go.
impl Drop for Env {
    fn drop(self) {
        let Env { base: _, own: _ } = self;
    }
}

impl Model for Env {
    ghost use Rattle.std.specs.Prelude.{List, ◌++◌, ◌≤◌, ◌<◌, ◌^◌, length};
    ghost use Rattle.hs_base.specs.declared.value.Value as value;
    ghost use Rattle.hs_base.specs.contracts.value.Value as e;
    ghost use Rattle.std.specs.Coded.{codes};
    ghost use Rattle.local_steps.specs.environments.Envs.{base_of};

    ghost Value = { List value.Value };

    ghost coded = { Prim.hlevel (codes, e.the_row.coded) };

    ghost view = { λ e. base_of e.base ++ e.own };

    ghost invariant = { λ e. (length e.own ≤ 8) × (length (base_of e.base) < 2 ^ 32) };
}

impl Env {
    /// No values.
    pub fn new(alloc: Global) -> Env
        ensures { result ≡ [] }
    {
        Env {
            base: None,
            own: Items::new(alloc),
        }
    }

    /// The environment of these values.
    pub fn of(alloc: Global, values: Values) -> Result<Env, NoMemory>
        ensures { IfOk result (λ e. e ≡ values) }
    {
        if values.len() <= OWN {
            return Ok(Env {
                base: None,
                own: values,
            });
        }
        let base = few(alloc, values)?;
        Ok(Env {
            base: Some(base),
            own: Items::new(alloc),
        })
    }

    /// The environment of the values that are shared and those behind them.
    pub(crate) fn with_own(base: Option<Shared<Values>>, own: Values) -> Env
        requires own { length own ≤ 8 }
        requires base { length (base_of base) < 2 ^ 32 }
        ensures { result ≡ base_of base ++ own }
    {
        Env { base, own }
    }

    /// Takes these values in place of its own, whose memory is spare from then on: no copy shares it. Where memory runs out the
    /// environment is as before.
    pub fn refill(
        &mut self,
        alloc: Global,
        values: Values,
        spare: &mut Spare,
    ) -> Result<(), NoMemory>
        ensures ok { OnOk result (self.new ≡ values) }
        ensures err { OnErr result (self.new ≡ self.old) }
    {
        let next = Env::of(alloc, values)?;
        spare.keep(mem::replace(self, next).into_own());
        Ok(())
    }

    /// The values that no copy shares.
    fn into_own(self) -> Values {
        let Env { base: _, own } = self;
        own
    }

    /// The value of a slot.
    pub fn get(&self, at: usize) -> Option<&Value>
        ensures { option_copied result ≡ slice_get self.now at }
    {
        match &self.base {
            None => self.own.get(at),
            Some(base) => {
                let base = base.get();
                if at < base.len() {
                    base.get(at)
                } else {
                    self.own.get(at - base.len())
                }
            }
        }
    }

    /// The number of values.
    pub fn len(&self) -> usize
        ensures { result ≡ length self.now }
    {
        let own = self.own.len();
        match &self.base {
            None => own,
            Some(base) => base.get().len() + own,
        }
    }

    /// Gives the next slot this value. Where memory runs out the environment is as before.
    pub fn push(&mut self, alloc: Global, value: Value) -> Result<(), NoMemory>
        ensures ok { OnOk result (self.new ≡ self.old ++ value ∷ []) }
        ensures err { OnErr result (self.new ≡ self.old) }
    {
        if self.own.len() < OWN {
            self.own.add(value)?;
            return Ok(());
        }
        let all = joined(alloc, &self.base, &self.own)?;
        let mut own = Items::new(alloc);
        own.add(value)?;
        self.base = Some(all);
        self.own = own;
        Ok(())
    }

    /// An equal environment, which shares its values.
    pub fn copy(&self, alloc: Global) -> Result<Env, NoMemory>
        ensures { IfOk result (λ e. e ≡ self.now) }
    {
        let base = shared(&self.base)?;
        let own = copied(alloc, self.own.as_slice(), 0)?;
        Ok(Env {
            base,
            own: Items::from_vec(own),
        })
    }

    /// Equal values, with room for one more.
    pub fn waiting(&self, alloc: Global) -> Result<Waiting, NoMemory>
        ensures { IfOk result (λ w. w ≡ self.now) }
    {
        if self.own.len() >= OWN {
            let all = joined(alloc, &self.base, &self.own)?;
            return Waiting::of(alloc, Some(all), &[]);
        }
        let base = shared(&self.base)?;
        Waiting::of(alloc, base, self.own.as_slice())
    }

    /// What an expression gives with these values. Where memory runs out the environment may have lost values.
    pub fn eval(
        &mut self,
        alloc: Global,
        nodes: &Items<Node>,
        at: ExprId,
    ) -> Result<Found, NoMemory>
        ensures value { IfOk result (λ o. out_of o ≡ run (tree_at nodes.now at) (values_of self.old)) }
        ensures same { OnOk result (self.new ≡ self.old) }
    {
        let mut own = mem::replace(&mut self.own, Items::new(alloc));
        let found = match &self.base {
            None => {
                let none = Items::new(alloc);
                eval_at(alloc, nodes, at, &none, &mut own)?
            }
            Some(values) => eval_at(alloc, nodes, at, values.get(), &mut own)?,
        };
        self.own = own;
        Ok(found)
    }

    /// What an expression says with these values, where it compares two numbers that stand there or in slots. For those this is
    /// quicker than `eval`, and it takes no memory; it answers nothing for any other expression.
    pub fn test(&self, nodes: &Items<Node>, at: ExprId) -> Option<bool>
        ensures { IfSome result (λ t. run (tree_at nodes.now at) (values_of self.now) ≡ Gives (Truth t)) }
    {
        let own = self.own.as_slice();
        match &self.base {
            None => test_at(nodes, at, &[], own),
            Some(values) => test_at(nodes, at, values.get().as_slice(), own),
        }
    }
}
