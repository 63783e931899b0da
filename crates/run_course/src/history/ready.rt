//! Which thread may have a job.
ghost use Rattle.std.specs.Prelude.{◌≡◌, ℕ, None, nat_eq, IsSome, IfSome, IfNone};
ghost use Rattle.std.specs.HashMap.{get};
ghost use Rattle.thread_table.specs.Listing.{Goes};
ghost use Rattle.thread_table.specs.Table.{IsAt};
ghost use Rattle.run_course.specs.history.Records.{Same};

use crate::history::record::Record;
use std::collections::HashMap;

impl Record {
    /// A thread of which a job may be made: it is to do an action, and `out` doesn't have it.
    pub fn next_ready(&mut self, out: &HashMap<u32, u64>) -> Option<u32>
        ensures some { IfSome result (λ t. IsAt t Goes self.new.world.threads.list.items × (get nat_eq out.now t ≡ None)) }
        ensures none { IfNone result ((t : ℕ) → IsAt t Goes self.new.world.threads.list.items → IsSome (get nat_eq out.now t)) }
        ensures same { Same self.old self.new }
    {
        self.world.threads.next_ready(out)
    }
}
