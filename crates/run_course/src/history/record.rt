ghost use Rattle.std.specs.Prelude.{◌<◌, ◌≤◌, ◌^◌};
ghost use Rattle.hs_rules.specs.Histories.{steps_of};
ghost use Rattle.hs_laws.specs.HistoryEndings.{StaysWithin};
ghost use Rattle.rules_expansion.specs.trees.Programs.{script_of};
ghost use Rattle.world_entries.specs.Worlds.{Live};

use hs_base::Limits;
use hs_rules::{CodeBody, History};
use std::snapshot::Snapshot;
use world_entries::World;

/// A history and the world that stands for the state that it leaves.
#[derive(Drop)]
pub struct Record {
    pub history: History,
    pub world: World,
    /// So many steps at most.
    pub fuel: u32,
    pub limits: Limits,
    /// The code that the threads' actions are of.
    pub of: Snapshot<CodeBody>,
    pub ghost after: { ∥ Live of.value history.list world ∥₁ },
    pub ghost within: { steps_of history.list ≤ fuel },
    pub ghost few: { fuel < 2 ^ 32 },
    pub ghost limited: { ∥ StaysWithin limits (script_of of.value.of.value) history.list ∥₁ },
}
