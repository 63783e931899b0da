ghost use Rattle.std.specs.Prelude.{List, ℕ};
ghost use Rattle.std.specs.declared.option.Option.{Option};
ghost use Rattle.hs_io.specs.Causes.{HasCause};
ghost use Rattle.hs_io.specs.Outside.{Puts};

use crate::failed::Failed;

/// Where bytes go.
pub trait Sink {
    /// The bytes that it was told so far, where it tells them.
    ghost told: { Self → Option (List ℕ) };

    /// How often a put has failed.
    ghost faults: { Self → ℕ };

    /// Tells the whole piece, or fails after some first bytes of it.
    fn put(&mut self, bytes: &[u8]) -> Result<(), Failed>
        ensures told { Puts (told self.old) (told self.new) result bytes.now }
        ensures cause { HasCause (faults self.old) (faults self.new) result };
}
