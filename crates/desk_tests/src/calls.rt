//! The calls on a desk, one by one.
use crate::desks::{at, job_of, ran};
use conc_world::{Closed, Committed, Parts, RunEnd, alone};
use hs_rules::Entry;
use std::test::Fail;

const HELLO: &[u8] = b"main :: IO () = { putStrLn \"hello\" };";

const TWICE: &[u8] = b"main :: IO () = { putStrLn \"a\"; putStrLn \"b\" };";

const COUNT: &[u8] = b"count (n :: Int) :: IO () = { count (n + 1) };
main :: IO () = { count 0 };";

#[test]
fn a_desk_runs_alone(rt: HostRuntime) -> Result<(), Fail> {
    let Some(mut desk) = at(rt.alloc(), HELLO, 1_000) else {
        return Err(Fail::new("no desk"));
    };
    assert!(rt; desk.ended().is_none());
    alone(&mut desk);
    let Closed {
        end,
        history,
        parts: Parts {
            out: _,
            err: _,
            clock: _,
        },
    } = desk.close();
    assert_eq!(rt; end, Some(RunEnd::Done));
    assert_eq!(rt; history.len(), 3);
    assert_eq!(rt; history.at(2), Some(Entry::Finish { t: 0 }));
    Ok(())
}

#[test]
fn a_job_is_made_once_and_may_be_dropped(rt: HostRuntime) -> Result<(), Fail> {
    let Some(mut desk) = at(rt.alloc(), HELLO, 1_000) else {
        return Err(Fail::new("no desk"));
    };
    desk.settle()?;
    let first = desk.next_job()?;
    assert_eq!(rt;
        first.map(|job| (job.ticket, job.tid, job.budget)),
        Some((1, 0, 1_000))
    );
    assert!(rt; desk.next_job()?.is_none());
    desk.drop_job(1);
    assert_eq!(rt; desk.next_job()?.map(|job| job.ticket), Some(2));
    desk.recall();
    assert_eq!(rt; desk.next_job()?.map(|job| job.ticket), Some(3));
    assert!(rt; desk.control_of(0).is_some());
    assert!(rt; desk.control_of(1).is_none());
    assert!(rt; desk.history().is_empty());
    Ok(())
}

#[test]
fn a_desk_goes_on_in_place_while_slices_are_short(rt: HostRuntime) -> Result<(), Fail> {
    let Some(mut desk) = at(rt.alloc(), TWICE, 1_000) else {
        return Err(Fail::new("no desk"));
    };
    desk.go_on(64, 64)?;
    assert_eq!(rt; desk.ended().copied(), Some(RunEnd::Done));
    let Some(mut desk) = at(rt.alloc(), COUNT, 1_000) else {
        return Err(Fail::new("no desk"));
    };
    desk.go_on(64, 64)?;
    assert!(rt; desk.ended().is_none());
    assert_eq!(rt; desk.history().steps(), 64);
    assert_eq!(rt; desk.next_job()?.map(|job| job.ticket), Some(1));
    Ok(())
}

#[test]
fn a_desk_without_memory_commits_nothing(rt: HostRuntime) -> Result<(), Fail> {
    let Some(mut desk) = at(rt.alloc(), HELLO, 1_000) else {
        return Err(Fail::new("no desk"));
    };
    desk.settle()?;
    let Some(job) = job_of(&mut desk, 0) else {
        return Err(Fail::new("no job"));
    };
    let slice = ran(&desk, job)?;
    desk.no_memory();
    assert_eq!(rt; desk.commit(slice), Committed::Ended);
    assert_eq!(rt; desk.ended().copied(), Some(RunEnd::Memory));
    assert!(rt; desk.history().is_empty());
    Ok(())
}

#[test]
fn the_fuel_is_counted_to_the_last_step(rt: HostRuntime) -> Result<(), Fail> {
    let Some(mut desk) = at(rt.alloc(), TWICE, 4) else {
        return Err(Fail::new("no desk"));
    };
    alone(&mut desk);
    assert_eq!(rt; desk.ended().copied(), Some(RunEnd::Fuel));
    assert_eq!(rt; desk.history().steps(), 4);
    Ok(())
}
