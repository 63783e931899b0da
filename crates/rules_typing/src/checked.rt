//! A script that the typing rules accept.

ghost use Rattle.rules_typing.specs.TypingScripts.{Accepted};
ghost use Rattle.std.specs.Prelude.{◌≡◌};

use hs_base::tree::Script;

/// A script that the typing rules accept.
#[derive(Drop)]
pub struct Checked {
    pub script: Script,
    pub ghost accepted: { Accepted script },
}

impl Checked {
    /// Lends the script.
    pub fn script(&self) -> &Script
        ensures { result.now ≡ self.now.script }
    {
        &self.script
    }
}
