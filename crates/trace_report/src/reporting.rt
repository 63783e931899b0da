//! The way along the lines of a text, with the counts beside the player.
ghost use Rattle.std.specs.Prelude.{◌≡◌, ◌++◌, IfErr, IfOk, OnOk, Err, length, string_bytes};
ghost use Rattle.hs_rules.specs.declared.entry.Entry.TheVariants as entry;
ghost use Rattle.rules_code.specs.Codes.{body_of};
ghost use Rattle.rules_expansion.specs.trees.Programs.{script_of};
ghost use Rattle.trace_report.specs.tally.Reporting.{report_of, lines_below};
ghost use Rattle.trace_checker.specs.Checking.{Judges, TellsOfRun};
ghost use Rattle.trace_report.specs.Looking.{before_of, seen_of, thread_text, cell_text};

use crate::looking::{is_blocked, is_full, line, touch, word};
use crate::tally::{Seen, Tally, Touch};
use hs_base::{NoMemory, Txt};
use hs_rules::{Code, Entry};
use std::alloc::{AllocError, Global};
use trace_checker::{RunFault, Walk};
use world_entries::World;

/// What an entry is about to touch, and whether that cell is full.
fn before(world: &World, entry: Entry) -> (Touch, bool)
    ensures { result ≡ before_of entry world.now }
{
    let Entry::Op { t } = entry else {
        return (Touch::Nothing, false);
    };
    let touch = touch(&world.threads, t);
    match touch.cell() {
        Some(m) => (touch, is_full(world, m)),
        None => (touch, false),
    }
}

/// What is seen of an entry once it was played, and of what was seen before it.
fn seen(world: &World, entry: Entry, before: (Touch, bool)) -> Seen
    ensures { result ≡ seen_of entry before world.now }
{
    let (touch, was_full) = before;
    let blocked = match entry {
        Entry::Op { t } => is_blocked(&world.threads, t),
        _ => false,
    };
    match touch.cell() {
        Some(m) => Seen {
            touch,
            was_full,
            is_full: is_full(world, m),
            line: line(world, m),
            blocked,
        },
        None => Seen {
            touch,
            was_full,
            is_full: false,
            line: 0,
            blocked,
        },
    }
}

/// The lines of all threads.
fn write_threads(tally: &Tally, world: &World, text: &mut String) -> Result<(), NoMemory>
    ensures { OnOk result (string_bytes text.new ≡ string_bytes text.old ++ lines_below (thread_text tally.now world.now) (length world.now.threads.list.items)) }
{
    for t in 0..world.threads.list.len() {
        tally.write_thread(text, t, word(&world.threads, t))?;
    }
    Ok(())
}

/// The lines of all cells.
fn write_cells(tally: &Tally, world: &World, text: &mut String) -> Result<(), NoMemory>
    ensures { OnOk result (string_bytes text.new ≡ string_bytes text.old ++ lines_below (cell_text tally.now world.now) (length world.now.cells.cells)) }
{
    for m in 0..world.cells.len() {
        let number = u32::try_from(m).map_err(|_| NoMemory)?;
        tally.write_cell(text, m, is_full(world, number))?;
    }
    Ok(())
}

/// The report of a world that stands for the state that a run leaves, by the counts of that run.
fn write(alloc: Global, tally: &Tally, world: &World) -> Result<Txt, NoMemory>
    ensures { IfOk result (λ txt. txt ≡ lines_below (thread_text tally.now world.now) (length world.now.threads.list.items) ++ lines_below (cell_text tally.now world.now) (length world.now.cells.cells)) }
{
    let mut text = String::new(alloc);
    write_threads(tally, world, &mut text)?;
    write_cells(tally, world, &mut text)?;
    Txt::from_string(text)
}

/// Goes along the lines of the text, entry by entry, and counts.
pub fn report(alloc: Global, code: &Code, text: &[u8]) -> Result<Txt, RunFault>
    ensures ok { IfOk result (TellsOfRun report_of (script_of (body_of code.now).of.value) text.now) }
    ensures err { IfErr result (λ fault. Judges (script_of (body_of code.now).of.value) text.now (Err fault)) }
{
    let mut walk = Walk::begin(alloc, code, text)?;
    let mut tally = Tally::new(alloc);
    while let Some(entry) = walk.next()? {
        let before = before(&walk.player.world, entry);
        walk.play(code, entry)?;
        let seen = seen(&walk.player.world, entry, before);
        tally.count(entry, seen)?;
    }
    Ok(write(alloc, &tally, &walk.player.world)?)
}
