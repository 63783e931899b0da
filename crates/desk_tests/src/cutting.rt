//! Slices that are cut short, and that come back too long for the fuel that is left.
use crate::desks::{at, job_of, ran};
use conc_world::Committed;
use frame_stack::{SliceFault, slice};
use hs_io::Cutter;
use std::test::Fail;

const SPIN: &[u8] = b"spin (n :: Int) :: IO () = { spin (n + 1) };
main :: IO () = { spin 0 };";

const BESIDE: &[u8] = b"spin (n :: Int) :: IO () = { spin (n + 1) };
main :: IO () = { _ <- forkIO { spin 0 }; spin 0 };";

const SHORT: &[u8] = b"spin (n :: Int) :: IO () = { spin (n + 1) };
main :: IO () = { _ <- forkIO { spin 0 }; putStr \"\" };";

/// A cutter that cuts nobody at first, and then names one ticket.
#[derive(Drop)]
struct Names {
    ticket: u64,
    /// So many looks cut nobody.
    free: u32,
    /// How often it was asked.
    looks: u32,
    last: u64,
}

impl Names {
    fn after(free: u32, ticket: u64) -> Names {
        Names {
            ticket,
            free,
            looks: 0,
            last: 0,
        }
    }
}

impl Cutter for Names {
    ghost last = { λ c. c.last };

    fn look(&mut self) -> u64 {
        if self.looks >= self.free {
            self.last = self.ticket;
        } else {
            self.looks += 1;
            self.last = 0;
        }
        self.last
    }
}

#[test]
fn a_slice_ends_at_the_look_that_names_it(rt: HostRuntime) -> Result<(), Fail> {
    let Some(mut desk) = at(rt.alloc(), SPIN, 1_000_000) else {
        return Err(Fail::new("no desk"));
    };
    desk.settle()?;
    let Some(job) = job_of(&mut desk, 0) else {
        return Err(Fail::new("no job"));
    };
    let ticket = job.ticket;
    let mut cutter = Names::after(2, ticket);
    match slice(rt.alloc(), desk.code(), job, &mut cutter) {
        Err(SliceFault::Cut { loaded }) => assert_eq!(rt; loaded, ticket),
        _ => return Err(Fail::new("it goes on")),
    }
    assert_eq!(rt; cutter.looks, 2);
    assert!(rt; desk.history().is_empty());
    Ok(())
}

#[test]
fn a_ticket_of_another_job_cuts_nobody(rt: HostRuntime) -> Result<(), Fail> {
    let Some(mut desk) = at(rt.alloc(), SPIN, 1_000_000) else {
        return Err(Fail::new("no desk"));
    };
    desk.settle()?;
    let Some(job) = job_of(&mut desk, 0) else {
        return Err(Fail::new("no job"));
    };
    let mut cutter = Names::after(0, job.ticket.wrapping_add(1));
    match slice(rt.alloc(), desk.code(), job, &mut cutter) {
        Ok(slice) => assert_eq!(rt; slice.steps, 1_024),
        Err(_) => return Err(Fail::new("it is cut")),
    }
    Ok(())
}

#[test]
fn a_slice_that_is_longer_than_the_fuel_left_is_short(rt: HostRuntime) -> Result<(), Fail> {
    let Some(mut desk) = at(rt.alloc(), BESIDE, 1_500) else {
        return Err(Fail::new("no desk"));
    };
    desk.settle()?;
    let Some(job) = job_of(&mut desk, 0) else {
        return Err(Fail::new("no job of main's fork"));
    };
    let forks = ran(&desk, job)?;
    assert_eq!(rt; desk.commit(forks), Committed::Taken);
    desk.settle()?;
    let (Some(of_main), Some(of_other)) = (job_of(&mut desk, 0), job_of(&mut desk, 1)) else {
        return Err(Fail::new("no two jobs"));
    };
    let first = ran(&desk, of_main)?;
    let second = ran(&desk, of_other)?;
    assert_eq!(rt; second.steps, 1_024);
    assert_eq!(rt; desk.commit(first), Committed::Taken);
    let taken = desk.history().steps();
    let left = 1_500u64.saturating_sub(taken);
    assert_eq!(rt; desk.commit(second), Committed::Short(left));
    assert_eq!(rt; desk.history().steps(), taken);
    Ok(())
}

// Counted by hand: main's bind and its fork are two rules, the fork is an entry, and the number that it answers meets the bind. That
// leaves 100 of 104 steps to each job. The first that comes back has one rule, up to the print, so the other is one step too long.
#[test]
fn what_one_slice_took_the_other_is_short_of(rt: HostRuntime) -> Result<(), Fail> {
    let Some(mut desk) = at(rt.alloc(), SHORT, 104) else {
        return Err(Fail::new("no desk"));
    };
    desk.settle()?;
    let Some(job) = job_of(&mut desk, 0) else {
        return Err(Fail::new("no job of main's fork"));
    };
    let forks = ran(&desk, job)?;
    assert_eq!(rt; desk.commit(forks), Committed::Taken);
    desk.settle()?;
    assert_eq!(rt; desk.history().steps(), 4);
    let (Some(of_main), Some(of_other)) = (job_of(&mut desk, 0), job_of(&mut desk, 1)) else {
        return Err(Fail::new("no two jobs"));
    };
    assert_eq!(rt; (of_main.budget, of_other.budget), (100, 100));
    let first = ran(&desk, of_main)?;
    let second = ran(&desk, of_other)?;
    assert_eq!(rt; (first.steps, second.steps), (1, 100));
    assert_eq!(rt; desk.commit(first), Committed::Taken);
    assert_eq!(rt; desk.commit(second), Committed::Short(99));
    assert_eq!(rt; desk.history().steps(), 5);
    Ok(())
}
