ghost use Rattle.std.specs.Prelude.{◌≡◌, ◌<◌, ◌^◌, [], ◌∷◌, ◌++◌, length, IfOk};
ghost use Rattle.local_steps.specs.environments.Envs.{base_of};

use crate::environments::copied::{copied, shared};
use crate::environments::env::Env;
use hs_base::{NoMemory, Value, Values};
use hs_items::{Items, Shared};
use std::alloc::Global;
use std::marker::Model;

/// The values of slots with room for one more, so that what waits for a value takes no memory when the value comes.
pub struct Waiting {
    /// The first values, which copies share.
    base: Option<Shared<Values>>,
    /// The values behind those.
    own: Vec<Value>,
}

// Written out, so that it is proved once, here, and not in each function above that lets one go.
impl Drop for Waiting {
    fn drop(self) {
        let Waiting { base: _, own: _ } = self;
    }
}

impl Model for Waiting {
    ghost use Rattle.std.specs.Prelude.{List, ◌++◌, ◌<◌, ◌^◌, length, vec_len, vec_capacity};
    ghost use Rattle.hs_base.specs.declared.value.Value as value;
    ghost use Rattle.hs_base.specs.contracts.value.Value as e;
    ghost use Rattle.std.specs.Coded.{codes};
    ghost use Rattle.local_steps.specs.environments.Envs.{base_of};

    ghost Value = { List value.Value };

    ghost coded = { Prim.hlevel (codes, e.the_row.coded) };

    ghost view = { λ w. base_of w.base ++ w.own.items };

    ghost invariant = { λ w. (vec_len w.own < vec_capacity w.own) × (vec_len w.own < 8) × (length (base_of w.base) < 2 ^ 32) };
}

impl Waiting {
    /// The values that are shared, and copies of those behind them.
    pub(crate) fn of(
        alloc: Global,
        base: Option<Shared<Values>>,
        own: &[Value],
    ) -> Result<Waiting, NoMemory>
        requires own { length own.now < 8 }
        requires base { length (base_of base) < 2 ^ 32 }
        ensures { IfOk result (λ w. w ≡ base_of base ++ own.now) }
    {
        let own = copied(alloc, own, 1)?;
        Ok(Waiting { base, own })
    }

    /// Equal values, which it shares, with room for one more.
    pub fn copy(&self, alloc: Global) -> Result<Waiting, NoMemory>
        ensures { IfOk result (λ w. w ≡ self.now) }
    {
        let base = shared(&self.base)?;
        Waiting::of(alloc, base, self.own.as_slice())
    }

    /// The environment in which this value has the next slot. It takes no memory.
    pub fn with(self, value: Value) -> Env
        ensures { result ≡ self ++ value ∷ [] }
    {
        let Waiting { base, mut own } = self;
        own.push_reserved(value);
        Env::with_own(base, Items::from_vec(own))
    }
}
