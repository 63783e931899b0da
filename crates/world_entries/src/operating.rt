//! Whatever operation a thread stands at.
ghost use Rattle.std.specs.Prelude.{◌≡◌, ◌+◌, length, OnOk, OnErr, IfOk};
ghost use Rattle.hs_rules.specs.declared.entry.Entry.TheVariants as entry;
ghost use Rattle.frame_stack.specs.declared.control.Operation.{Operation};
ghost use Rattle.world_entries.specs.Worlds.{IsLive, Makes, SameState, Stands, Goes, HasRoom};

use crate::world::World;
use frame_stack::{Control, Prim};
use hs_base::{NoMemory, Txt};

/// How many bytes are printed of a text, with so many more.
fn bytes(text: &Txt, more: u32) -> Result<u32, NoMemory>
    ensures { IfOk result (λ n. n ≡ length text.now + more) }
{
    let Ok(len) = u32::try_from(text.as_str().len()) else {
        return Err(NoMemory);
    };
    len.checked_add(more).ok_or(NoMemory)
}

impl World {
    /// The thread performs the operation that it stands at.
    pub fn op(&mut self, t: u32) -> Result<(), NoMemory>
        requires live { IsLive self.old }
        requires goes { Goes self.old }
        requires room { HasRoom self.old }
        requires stands { (o : Operation) × Stands self.old t o }
        ensures ok { OnOk result (Makes (entry.Op t) self.old self.new) }
        ensures err { OnErr result (SameState self.old self.new) }
    {
        let operation = match self.threads.list[t as usize].stack.control() {
            Control::Op(operation) => operation.copy(self.alloc)?,
            _ => unreachable!(),
        };
        self.perform(t, operation)
    }

    /// The thread performs this operation, at which it stands.
    fn perform(&mut self, t: u32, operation: Prim) -> Result<(), NoMemory>
        requires live { IsLive self.old }
        requires goes { Goes self.old }
        requires room { HasRoom self.old }
        requires stands { Stands self.old t operation }
        ensures ok { OnOk result (Makes (entry.Op t) self.old self.new) }
        ensures err { OnErr result (SameState self.old self.new) }
    {
        match operation {
            Prim::PutStr(text) => self.print(t, bytes(&text, 0)?),
            Prim::PutStrLn(text) => self.print(t, bytes(&text, 1)?),
            Prim::HPutStrLn(text) => self.print(t, bytes(&text, 1)?),
            Prim::NewMVar(value) => self.fresh(t, value),
            Prim::NewEmptyMVar => self.fresh_empty(t),
            Prim::TakeMVar(cell) => self.take(t, cell),
            Prim::PutMVar(cell, value) => return self.put(t, cell, value),
            Prim::ReadMVar(cell) => return self.read(t, cell),
            Prim::TryTakeMVar(cell) => return self.try_take(t, cell),
            Prim::TryPutMVar(cell, value) => return self.try_put(t, cell, value),
            Prim::MyThreadId => self.my_thread(t),
            Prim::GetMaskingState => return self.masking(t),
            Prim::ClockMicros => self.clock(t),
            Prim::ThreadDelay(micros) => self.delay(t, micros),
            Prim::ThrowTo(target, exn) => self.throw_to(t, target, exn),
            Prim::NewTimeout => self.new_timeout(t),
            Prim::Acquired => self.acquired(t),
            Prim::Release(number) => self.release(t, number),
            Prim::Fork(action, env) => return self.fork(t, action, env),
            Prim::ForkUnmask(action, env) => return self.fork_unmask(t, action, env),
        }
        Ok(())
    }
}
