//! The world goes on by an entry where it is legal.
ghost use Rattle.std.specs.Prelude.{◌≡◌, IfOk, List, MatchBool, OnErr};
ghost use Rattle.hs_rules.specs.declared.entry.Entry.{Entry as AnEntry};
ghost use Rattle.hs_rules.specs.declared.entry.Entry.TheVariants as entry;
ghost use Rattle.rules_code.specs.declared.code.CodeBody.{CodeBody};
ghost use Rattle.rules_code.specs.Codes.{body_of};
ghost use Rattle.thread_table.specs.Kinds.{IsKind};
ghost use Rattle.thread_table.specs.declared.kinds.EntryKind.TheVariants as kind;
ghost use Rattle.run_course.specs.declared.history.acts.Next.TheVariants as next;
ghost use Rattle.world_entries.specs.Worlds.{Ends, Goes, HasRoom, IsLive, Live, SameState};
ghost use Rattle.trace_checker.specs.player.Entering.{IsFree, Tried, TriedOf, is_strand as is_strand_by};

use frame_stack::Control;
use hs_base::NoMemory;
use hs_rules::{Code, Entry};
use run_course::history::{Next, NextEntry, next_of};
use thread_table::{EntryKind, Threads};
use world_entries::World;
use world_entries::lines::uncaught;

/// Goes on by the entry where it is legal, and answers whether it is.
pub fn enter(world: &mut World, code: &Code, entry: Entry) -> Result<bool, NoMemory>
    requires live { ∥ ((es : List AnEntry) × Live (body_of code.now) es world.old) ∥₁ }
    requires goes { Goes world.old }
    requires room { HasRoom world.old }
    ensures tried { IfOk result (λ done. TriedOf (body_of code.now) entry world.old world.new done) }
    ensures err { OnErr result (SameState world.old world.new) }
{
    match entry {
        Entry::Local { t, k } => local(world, code, t, k),
        Entry::Op { t } => op(world, t),
        Entry::Receive { t } => Ok(receive(world, t)),
        Entry::Wake { t } => Ok(wake(world, t)),
        Entry::Finish { t } => finish(world, t),
        Entry::Tick { at } => Ok(tick(world, at)),
        Entry::Stranded => strand(world),
    }
}

/// The clock never goes back.
fn tick(world: &mut World, at: u64) -> bool
    requires goes { Goes world.old }
    ensures { Tried (entry.Tick at) world.old world.new result }
{
    if at < world.clock {
        return false;
    }
    world.tick(at);
    true
}

/// A sleeper whose time has come wakes.
fn wake(world: &mut World, t: u32) -> bool
    requires live { IsLive world.old }
    requires goes { Goes world.old }
    requires room { HasRoom world.old }
    ensures { Tried (entry.Wake t) world.old world.new result }
{
    let Some(due) = world.sleepers.due_of(t) else {
        return false;
    };
    if due > world.clock {
        return false;
    }
    world.wake(t);
    true
}

fn op(world: &mut World, t: u32) -> Result<bool, NoMemory>
    requires live { IsLive world.old }
    requires goes { Goes world.old }
    requires room { HasRoom world.old }
    ensures tried { IfOk result (λ done. Tried (entry.Op t) world.old world.new done) }
    ensures err { OnErr result (SameState world.old world.new) }
{
    if !world.threads.has(EntryKind::Op, t) {
        return Ok(false);
    }
    world.op(t)?;
    Ok(true)
}

fn receive(world: &mut World, t: u32) -> bool
    requires live { IsLive world.old }
    requires goes { Goes world.old }
    requires room { HasRoom world.old }
    ensures { Tried (entry.Receive t) world.old world.new result }
{
    if !world.threads.has(EntryKind::Receive, t) {
        return false;
    }
    world.receive(t);
    true
}

fn finish(world: &mut World, t: u32) -> Result<bool, NoMemory>
    requires live { IsLive world.old }
    requires goes { Goes world.old }
    requires room { HasRoom world.old }
    ensures tried { IfOk result (λ done. Tried (entry.Finish t) world.old world.new done) }
    ensures err { OnErr result (SameState world.old world.new) }
{
    if !world.threads.has(EntryKind::Finish, t) {
        return Ok(false);
    }
    let bytes = end_bytes(world, t)?;
    world.finish(t, bytes);
    Ok(true)
}

/// How many bytes the end of the thread writes to error output.
fn end_bytes(world: &World, t: u32) -> Result<u32, NoMemory>
    requires { IsKind kind.Finish t world.now.threads }
    ensures { IfOk result (λ n. Ends t n world.now) }
{
    match world.threads.list[t as usize].stack.control() {
        Control::Throw(e) => {
            let line = uncaught(world.alloc, t, e)?;
            u32::try_from(line.len()).map_err(|_| NoMemory)
        }
        _ => Ok(0),
    }
}

fn local(world: &mut World, code: &Code, t: u32, k: u32) -> Result<bool, NoMemory>
    requires live { ∥ ((es : List AnEntry) × Live (body_of code.now) es world.old) ∥₁ }
    requires goes { Goes world.old }
    requires room { HasRoom world.old }
    ensures tried { IfOk result (λ done. TriedOf (body_of code.now) (entry.Local t k) world.old world.new done) }
    ensures err { OnErr result (SameState world.old world.new) }
{
    if k == 0 {
        return Ok(false);
    }
    if !is_free(&world.threads, t) {
        return Ok(false);
    }
    world.advance(code, t, k)
}

/// Whether the thread is there, hasn't finished, and isn't blocked.
fn is_free(threads: &Threads, t: u32) -> bool
    ensures { MatchBool result (IsFree t threads.now) (IsFree t threads.now → ⊥) }
{
    match threads.list.get(t as usize) {
        Some(thread) => !thread.finished && !thread.blocked,
        None => false,
    }
}

/// Those who wait at a cell are stranded where nothing else is left.
fn strand(world: &mut World) -> Result<bool, NoMemory>
    requires live { IsLive world.old }
    requires goes { Goes world.old }
    ensures tried { IfOk result (λ done. Tried entry.Stranded world.old world.new done) }
    ensures err { OnErr result (SameState world.old world.new) }
{
    if !is_strand(next_of(world)) {
        return Ok(false);
    }
    world.room()?;
    world.strand();
    Ok(true)
}

/// Whether what can be done next is to strand.
fn is_strand(next: Next) -> bool
    ensures { result ≡ is_strand_by next }
{
    match next {
        Next::Over(_) => false,
        Next::Act(act) => strands(act),
        Next::Goes => false,
        Next::Sleeps(_) => false,
        Next::Stuck => false,
    }
}

fn strands(act: NextEntry) -> bool
    ensures { result ≡ is_strand_by (next.Act act) }
{
    match act {
        NextEntry::Op(_) => false,
        NextEntry::Finish(_) => false,
        NextEntry::Local(_) => false,
        NextEntry::Receive(_) => false,
        NextEntry::Wake(_) => false,
        NextEntry::Strand => true,
    }
}
