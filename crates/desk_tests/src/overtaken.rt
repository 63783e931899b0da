//! A slice of a thread that is killed while it runs.
ghost use Rattle.run_course.specs.Settled.{KeepsPlan};

use crate::desks::{Quiet, at, job_of, ran};
use conc_world::{Committed, Why};
use frame_stack::Control;
use hs_rules::{Act, Code, CodeBody, Node};
use std::alloc::Global;
use std::test::Fail;

const CAUGHT: &[u8] = b"spin (n :: Int) :: IO () = { spin (n + 1) };
main :: IO () = { t <- forkIO { catch { spin 0 } e { spin 1 } }; killThread t; spin 0 };";

const KILLED: &[u8] = b"spin (n :: Int) :: IO () = { spin (n + 1) };
main :: IO () = { t <- forkIO { spin 0 }; killThread t; spin 0 };";

/// What came of a slice of thread 1 that was kept while main killed the thread.
#[derive(Drop)]
struct Late {
    /// How many steps the slice before it had.
    before: u32,
    /// The ticket of its job.
    ticket: u64,
    /// What `overtaken` answered, called twice.
    overtaken: (Option<u64>, Option<u64>),
    came: Committed,
    /// With which number thread 1 is to call `spin` then, where it hasn't finished.
    stands: Option<Option<i64>>,
    /// With which number its next job begins that call, and how many steps it has.
    goes_on: Option<(Option<i64>, u32)>,
}

// The number with which the first function of the script is to be called, where that is what the control says.
fn called_with(code: &Code, control: &Control) -> Option<i64> {
    let Control::Doing(at, _) = control else {
        return None;
    };
    let body: &CodeBody = &code.body;
    let Act::Call(0, arguments) = body.acts.as_slice().get(at.0)? else {
        return None;
    };
    let [argument] = arguments.as_slice() else {
        return None;
    };
    match body.nodes.as_slice().get(argument.0)? {
        Node::Int(number) => Some(*number),
        _ => None,
    }
}

// Main forks, and thread 1 runs a slice; its second slice is kept while main kills it.
fn hold_back(alloc: Global, script: &[u8]) -> Result<Late, Fail> {
    let Some(mut desk) = at(alloc, script, 1_000_000) else {
        return Err(Fail::new("no desk"));
    };
    desk.settle()?;
    step(&mut desk, 0)?;
    let before = step(&mut desk, 1)?;
    let Some(job) = job_of(&mut desk, 1) else {
        return Err(Fail::new("no job"));
    };
    let ticket = job.ticket;
    let kept = ran(&desk, job)?;
    step(&mut desk, 0)?;
    let overtaken = (desk.overtaken(), desk.overtaken());
    let stands = match desk.control_of(1) {
        Some(control) => Some(called_with(desk.code(), control)),
        None => None,
    };
    let next = job_of(&mut desk, 1);
    let came = desk.commit(kept);
    let goes_on = match next {
        Some(job) => {
            let start = called_with(desk.code(), &job.start);
            Some((start, ran(&desk, job)?.steps))
        }
        None => None,
    };
    Ok(Late {
        before,
        ticket,
        overtaken,
        came,
        stands,
        goes_on,
    })
}

// A slice of the thread is run and committed, and the desk settles. How many steps it had.
fn step(desk: &mut Quiet, thread: u32) -> Result<u32, Fail>
    ensures plan { KeepsPlan desk.old.course.clocked.record desk.new.course.clocked.record }
{
    let Some(job) = job_of(desk, thread) else {
        return Err(Fail::new("no job"));
    };
    let slice = ran(desk, job)?;
    let steps = slice.steps;
    if desk.commit(slice) != Committed::Taken {
        return Err(Fail::new("not taken"));
    }
    desk.settle()?;
    Ok(steps)
}

#[test]
fn a_slice_of_a_thread_that_goes_on_elsewhere_is_stale(rt: HostRuntime) -> Result<(), Fail> {
    let late = hold_back(rt.alloc(), CAUGHT)?;
    assert_eq!(rt; late.overtaken, (Some(late.ticket), None));
    assert_eq!(rt; late.came, Committed::Stale(Why::Differs));
    assert_eq!(rt; late.before, 1_024);
    assert_eq!(rt; late.stands, Some(Some(1)));
    assert_eq!(rt; late.goes_on, Some((Some(1), 1_024)));
    Ok(())
}

#[test]
fn a_slice_of_a_thread_that_has_finished_is_stale(rt: HostRuntime) -> Result<(), Fail> {
    let late = hold_back(rt.alloc(), KILLED)?;
    assert_eq!(rt; late.overtaken, (Some(late.ticket), None));
    assert_eq!(rt; late.came, Committed::Stale(Why::Finished));
    assert_eq!(rt; late.before, 1_024);
    assert_eq!(rt; late.stands, None);
    assert_eq!(rt; late.goes_on, None);
    Ok(())
}
