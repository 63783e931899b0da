//! A run that hasn't begun.
ghost use Rattle.std.specs.Prelude.{◌≡◌, ◌≤◌, [], IfOk};
ghost use Rattle.rules_code.specs.Codes.{body_of};

use crate::history::record::Record;
use hs_base::{Limits, NoMemory};
use hs_rules::{Code, CodeBody, History};
use std::alloc::Global;
use std::snapshot::Snapshot;
use world_entries::World;

impl Record {
    /// The record of a run of this code that hasn't begun.
    pub fn begin(alloc: Global, code: &Code, fuel: u32, limits: Limits) -> Result<Record, NoMemory>
        requires { 1 ≤ limits.threads }
        ensures history { IfOk result (λ r. r.history.list ≡ []) }
        ensures code { IfOk result (λ r. r.of.value ≡ body_of code.now) }
        ensures plan { IfOk result (λ r. (r.fuel ≡ fuel) × (r.limits ≡ limits)) }
        ensures clock { IfOk result (λ r. r.world.clock ≡ 0) }
    {
        let world = World::first(alloc, code)?;
        let body: &CodeBody = &code.body;
        Ok(Record {
            history: History::new(alloc),
            world,
            fuel,
            limits,
            of: Snapshot::of(body),
        })
    }
}
