//! The call.
ghost use Rattle.std.specs.Prelude.{◌≡◌, ◌≤◌, IsSome};
ghost use mathlib.Core.List.{IsPrefix};

use caps_loop::run_caps as run_loop;
use frame_stack::{Job, Slice};
use hs_io::{Clock, Gate, Sink};
use hs_rules::Kept;
use lent_desk::{Desk, LentAs, LentDesk};
use std::alloc::{AllocFailed, Global};
use std::marker::Brand;
use std::sync::Wait;
use std::thread::Threads;

/// Runs the desk to an ending on so many capabilities, one of them on the thread of the caller. A desk that has an ending comes back
/// as it is.
///
/// It starts threads by `rt` and waits for all of them. Where memory for a box of the desk or for what the capabilities share is
/// refused the ending is Memory; where it is refused for some of them, the others do the work. The gate is called by all
/// capabilities, outside the turn: `before_slice` when a slice begins, and `committed` after the turn in which the desk took it.
pub fn run_caps<
    O: Sink + Send,
    E: Sink + Send,
    K: Clock + Send,
    G: Gate + Sync,
    R: Threads + Wait + Sync,
>(alloc: Global, rt: &R, desk: Desk<O, E, K>, caps: u32, gate: &G) -> Desk<O, E, K>
    requires { (2 ≤ caps) × (caps ≤ 16) }
    ensures plan { ⟦<Desk<O, E, K> as Kept>⟧.plan result ≡ ⟦<Desk<O, E, K> as Kept>⟧.plan desk }
    ensures history { IsPrefix (⟦<Desk<O, E, K> as Kept>⟧.history desk) (⟦<Desk<O, E, K> as Kept>⟧.history result) }
    ensures ended { IsSome result.course.end }
    ensures over { IsSome desk.course.end → result ≡ desk }
    ensures output { O.told result.course.out_lent.value ≡ O.told desk.course.out_lent.value }
    ensures errors { E.told result.course.err_lent.value ≡ E.told desk.course.err_lent.value }
    ensures last { K.last result.course.clocked.lent.value ≡ K.last desk.course.clocked.lent.value }
{
    if desk.ended().is_some() {
        return desk;
    }
    run_lent::<Brand, O, E, K, G, R>(alloc, rt, desk, caps, gate)
}

// The same, with a name for what was lent.
fn run_lent<
    N: LentAs + Send,
    O: Sink + Send,
    E: Sink + Send,
    K: Clock + Send,
    G: Gate + Sync,
    R: Threads + Wait + Sync,
>(alloc: Global, rt: &R, desk: Desk<O, E, K>, caps: u32, gate: &G) -> Desk<O, E, K>
    requires caps { (2 ≤ caps) × (caps ≤ 16) }
    requires output { O.told desk.course.out_lent.value ≡ N.output }
    requires errors { E.told desk.course.err_lent.value ≡ N.errors }
    requires last { K.last desk.course.clocked.lent.value ≡ N.last }
    ensures plan { ⟦<Desk<O, E, K> as Kept>⟧.plan result ≡ ⟦<Desk<O, E, K> as Kept>⟧.plan desk }
    ensures history { IsPrefix (⟦<Desk<O, E, K> as Kept>⟧.history desk) (⟦<Desk<O, E, K> as Kept>⟧.history result) }
    ensures ended { IsSome result.course.end }
    ensures output { O.told result.course.out_lent.value ≡ N.output }
    ensures errors { E.told result.course.err_lent.value ≡ N.errors }
    ensures last { K.last result.course.clocked.lent.value ≡ N.last }
{
    let desk = match Box::new(alloc, desk) {
        Ok(desk) => desk,
        Err(AllocFailed { value: desk }) => {
            let mut desk = desk;
            desk.no_memory();
            return desk;
        }
    };
    let desk: LentDesk<O, E, K, N> = LentDesk::new(desk);
    run_loop::<LentDesk<O, E, K, N>, Job, Slice, G, R>(alloc, rt, desk, caps, gate).into_desk()
}
