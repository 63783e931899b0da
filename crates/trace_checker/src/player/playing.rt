//! One entry.
ghost use Rattle.std.specs.Prelude.{◌≡◌, ◌++◌, ◌∷◌, [], IfOk, IsTrue, List, MatchBool, OnErr, false};
ghost use Rattle.hs_rules.specs.declared.entry.Entry.{Entry as AnEntry};
ghost use Rattle.rules_code.specs.Codes.{body_of};
ghost use Rattle.world_entries.specs.Worlds.{Goes};
ghost use Rattle.trace_checker.specs.player.Playing.{CanFollow, Played, Unchanged};

use crate::player::entering::enter;
use crate::player::player::Player;
use hs_base::NoMemory;
use hs_rules::{Code, Entry};

impl Player {
    /// Goes on by the entry where it is legal, and answers whether it is.
    pub fn play(&mut self, code: &Code, entry: Entry) -> Result<bool, NoMemory>
        requires { self.old.of.value ≡ body_of code.now }
        ensures of { self.new.of ≡ self.old.of }
        ensures legal { IfOk result (λ done. IsTrue done → (es : List AnEntry) → Played es self.old → Played (es ++ entry ∷ []) self.new) }
        ensures illegal { IfOk result (λ done. (done ≡ false) → Unchanged self.old self.new × ((es : List AnEntry) → Played es self.old → CanFollow es entry self.old → ⊥)) }
        ensures err { OnErr result (Unchanged self.old self.new) }
    {
        if !self.goes() {
            return Ok(false);
        }
        self.world.room()?;
        enter(&mut self.world, code, entry)
    }

    /// Whether the main thread hasn't finished.
    fn goes(&self) -> bool
        ensures { MatchBool result (Goes self.now.world) (Goes self.now.world → ⊥) }
    {
        !self.world.threads.list[0].finished
    }
}
