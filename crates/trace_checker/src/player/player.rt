ghost use Rattle.std.specs.Prelude.{◌≡◌, [], IfOk, List};
ghost use Rattle.hs_rules.specs.declared.entry.Entry.{Entry};
ghost use Rattle.rules_code.specs.Codes.{body_of};
ghost use Rattle.world_entries.specs.Worlds.{Live};

use hs_base::NoMemory;
use hs_rules::{Code, CodeBody};
use std::alloc::Global;
use std::snapshot::Snapshot;
use world_entries::World;

/// What stands for the state that a run leaves.
#[derive(Drop)]
pub struct Player {
    pub world: World,
    /// The code whose script the run is of.
    pub of: Snapshot<CodeBody>,
    pub ghost live: { ∥ ((es : List Entry) × Live of.value es world) ∥₁ },
}

/// What a run has come to.
#[derive(Clone, Copy, Debug, PartialEq, Eq)]
pub enum Reached {
    /// The main thread has finished by a value.
    Done,
    /// The main thread has finished by an exception.
    Uncaught,
    /// Nothing can go on, and nobody sleeps.
    Deadlock,
    /// None of these.
    Open,
}

impl Player {
    ghost use Rattle.trace_checker.specs.player.Playing.{Played};

    /// Before the first entry.
    pub fn begin(alloc: Global, code: &Code) -> Result<Player, NoMemory>
        ensures { IfOk result (λ p. (p.of.value ≡ body_of code.now) × Played [] p) }
    {
        let world = World::first(alloc, code)?;
        let body: &CodeBody = &code.body;
        Ok(Player {
            world,
            of: Snapshot::of(body),
        })
    }
}
