//! A script run to its ending, alone or by several capabilities.
ghost use Rattle.std.specs.Prelude.{◌≡◌, ◌≤◌, IfErr, IfOk, IsSome, Some};
ghost use Rattle.rules_code.specs.Codes.{body_of};
ghost use Rattle.conc_top.specs.Answers.{HasRun};

use conc_caps::{Closed, Desk, Parts, Shows, alone, run_caps};
use conc_task::Program;
use hs_base::Limits;
use hs_io::{Clock, Gate, Sink};
use hs_rules::Kept;
use std::alloc::Global;
use std::sync::Wait;
use std::thread::Threads;

/// Runs the program by the clock that it chooses, or hands back what it was given where there is no memory to begin.
pub(crate) fn run_program<
    O: Sink + Send,
    E: Sink + Send,
    K: Clock + Send,
    G: Gate + Sync,
    R: Threads + Wait + Sync,
>(
    alloc: Global,
    rt: &R,
    program: Program,
    gate: &G,
    parts: Parts<O, E, K>,
) -> Result<Closed<O, E, K>, Parts<O, E, K>>
    requires fuel { 1 ≤ program.fuel }
    requires capabilities { (1 ≤ program.capabilities) × (program.capabilities ≤ 16) }
    ensures run { IfOk result (λ closed. HasRun program.fuel (body_of program.code).of.value closed.end closed.history.list
        (⟦<Parts<O, E, K> as Shows>⟧.shown parts)
        (⟦<Parts<O, E, K> as Shows>⟧.shown closed.parts)) }
    ensures choice { IfOk result (λ closed. K.choice closed.parts.clock ≡ Some program.clock) }
    ensures err { IfErr result (λ back. (back.out ≡ parts.out) × (back.err ≡ parts.err) × (K.choice back.clock ≡ Some program.clock) × (K.early_waits back.clock ≡ K.early_waits parts.clock)) }
{
    let Program {
        code,
        capabilities,
        fuel,
        clock: choice,
    } = program;
    let Parts { out, err, clock } = parts;
    let mut clock = clock;
    clock.choose(choice);
    match Desk::begin(alloc, code, fuel, Limits::shipped(), out, err, clock) {
        Ok(desk) => Ok(run_desk(alloc, rt, desk, capabilities, gate).close()),
        Err(parts) => Err(parts),
    }
}

/// Runs the desk to an ending. One capability has no thread of its own, and calls no gate.
fn run_desk<
    O: Sink + Send,
    E: Sink + Send,
    K: Clock + Send,
    G: Gate + Sync,
    R: Threads + Wait + Sync,
>(alloc: Global, rt: &R, mut desk: Desk<O, E, K>, capabilities: u8, gate: &G) -> Desk<O, E, K>
    requires { (1 ≤ capabilities) × (capabilities ≤ 16) }
    ensures plan { ⟦<Desk<O, E, K> as Kept>⟧.plan result ≡ ⟦<Desk<O, E, K> as Kept>⟧.plan desk }
    ensures ended { IsSome result.course.end }
    ensures output { O.told result.course.out_lent.value ≡ O.told desk.course.out_lent.value }
    ensures errors { E.told result.course.err_lent.value ≡ E.told desk.course.err_lent.value }
    ensures last { K.last result.course.clocked.lent.value ≡ K.last desk.course.clocked.lent.value }
{
    if capabilities == 1 {
        alone(&mut desk);
        desk
    } else {
        run_caps(alloc, rt, desk, u32::from(capabilities), gate)
    }
}
