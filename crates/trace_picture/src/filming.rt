//! The way along the lines of a text, with a film beside the player.
ghost use Rattle.std.specs.Prelude.{◌≡◌, ◌++◌, ◌∷◌, [], IfErr, IfOk, OnOk, Err, vec_items, length};
ghost use Rattle.rules_code.specs.Codes.{body_of};
ghost use Rattle.rules_expansion.specs.trees.Programs.{script_of};
ghost use Rattle.trace_checker.specs.Checking.{Judges};
ghost use Rattle.lane_picture.specs.declared.film.Event.TheVariants as an_event;
ghost use Rattle.lane_picture.specs.Drawing.{picture as drawing};
ghost use Rattle.trace_picture.specs.Looking.{frame_at};
ghost use Rattle.trace_picture.specs.Picturing.{ending_of, Pictures, Refuses};
ghost use Rattle.trace_picture.specs.Shooting.{Shoots};

use crate::fault::PictureFault;
use crate::looking::{event, frame};
use hs_base::{NoMemory, Txt};
use hs_rules::Code;
use lane_picture::{Ending, Event, Frame, draw};
use std::alloc::Global;
use trace_checker::{Reached, RunFault, Verified, Walk, check_run};
use world_entries::World;

/// So many entries are drawn at most.
const MOST_ENTRIES: u32 = 10_000;

/// A film, and how many threads and cells its last state has.
#[derive(Drop)]
pub(crate) struct Shot {
    pub film: Vec<Frame>,
    pub threads: u32,
    pub cells: u32,
}

/// One more frame, of an event that has led to this world.
fn add(alloc: Global, film: &mut Vec<Frame>, world: &World, event: Event) -> Result<(), NoMemory>
    ensures { OnOk result (vec_items film.new ≡ vec_items film.old ++ frame_at event world.now ∷ []) }
{
    let next = frame(alloc, world, event)?;
    film.reserve(1)?;
    film.push_reserved(next);
    Ok(())
}

/// How many threads and cells there are.
fn counted(world: &World) -> Result<(u32, u32), NoMemory>
    ensures { IfOk result (λ n. (n.0 ≡ length world.now.threads.list.items) × (n.1 ≡ length world.now.cells.cells)) }
{
    let threads = u32::try_from(world.threads.list.len()).map_err(|_| NoMemory)?;
    let cells = u32::try_from(world.cells.len()).map_err(|_| NoMemory)?;
    Ok((threads, cells))
}

/// The film of the run that a text spells.
fn shoot(alloc: Global, code: &Code, text: &[u8]) -> Result<Shot, RunFault>
    ensures ok { IfOk result (λ shot. ∥ Shoots (script_of (body_of code.now).of.value) text.now shot ∥₁) }
    ensures err { IfErr result (λ fault. Judges (script_of (body_of code.now).of.value) text.now (Err fault)) }
{
    let mut walk = Walk::begin(alloc, code, text)?;
    let mut film = Vec::new(alloc);
    add(alloc, &mut film, &walk.player.world, Event::Nothing)?;
    'lines: while let Some(entry) = walk.next()? {
        let event = event(alloc, &walk.player.world, entry)?;
        walk.play(code, entry)?;
        add(alloc, &mut film, &walk.player.world, event)?;
    }
    let (threads, cells) = counted(&walk.player.world)?;
    Ok(Shot {
        film,
        threads,
        cells,
    })
}

fn ending(reached: Reached) -> Ending
    ensures { result ≡ ending_of reached }
{
    match reached {
        Reached::Done => Ending::Done,
        Reached::Uncaught => Ending::Uncaught,
        Reached::Deadlock => Ending::Deadlock,
        Reached::Open => Ending::Open,
    }
}

/// The picture of a film whose run was verified.
fn develop(alloc: Global, shot: &Shot, verified: Verified) -> Result<Txt, NoMemory>
    ensures { IfOk result (λ txt. txt ≡ drawing (vec_items shot.now.film) shot.now.threads shot.now.cells (ending_of verified.end)) }
{
    let end = ending(verified.end);
    draw(alloc, &shot.film, shot.threads, shot.cells, end)
}

/// The picture of the run of the script that the text spells, as an SVG document. The text is checked first, as a whole; a run
/// with more than 10,000 entries has no picture.
pub fn picture(alloc: Global, code: &Code, text: &[u8]) -> Result<Txt, PictureFault>
    ensures ok { IfOk result (λ txt. ∥ Pictures (script_of (body_of code.now).of.value) text.now txt ∥₁) }
    ensures err { IfErr result (λ fault. Refuses (script_of (body_of code.now).of.value) text.now fault) }
{
    let verified = check_run(alloc, code, text)?;
    if verified.entries > MOST_ENTRIES {
        return Err(PictureFault::Large(verified.entries));
    }
    let shot = shoot(alloc, code, text)?;
    Ok(develop(alloc, &shot, verified)?)
}
