//! Tickets of jobs that are out.
use conc_world::tickets::{Out, Tickets};
use std::test::Fail;

#[test]
fn a_ticket_comes_back_once(rt: HostRuntime) -> Result<(), Fail> {
    let mut tickets = Tickets::new(rt.alloc());
    tickets.room()?;
    tickets.add(7, 1, 3);
    let job = Out {
        thread: 1,
        since: 3,
    };
    assert_eq!(rt; tickets.jobs.get(&7).copied(), Some(job));
    tickets.drop(7);
    tickets.drop(7);
    assert_eq!(rt; tickets.jobs.get(&7).copied(), None);
    Ok(())
}

#[test]
fn a_thread_has_a_new_job_once_its_ticket_came_back(rt: HostRuntime) -> Result<(), Fail> {
    let mut tickets = Tickets::new(rt.alloc());
    tickets.room()?;
    tickets.add(7, 1, 3);
    tickets.drop(7);
    tickets.room()?;
    tickets.add(9, 1, 5);
    assert_eq!(rt; tickets.of_threads.get(&1).copied(), Some(9));
    Ok(())
}

#[test]
fn overtaken_tickets_come_in_order(rt: HostRuntime) -> Result<(), Fail> {
    let mut tickets = Tickets::new(rt.alloc());
    tickets.room()?;
    tickets.add(9, 1, 0);
    tickets.room()?;
    tickets.add(7, 2, 0);
    tickets.mark(1);
    tickets.mark(2);
    tickets.mark(2);
    assert_eq!(rt; tickets.next_overtaken(), Some(7));
    assert_eq!(rt; tickets.next_overtaken(), Some(9));
    assert_eq!(rt; tickets.next_overtaken(), None);
    Ok(())
}

#[test]
fn nothing_is_out_once_all_came_back(rt: HostRuntime) -> Result<(), Fail> {
    let mut tickets = Tickets::new(rt.alloc());
    tickets.room()?;
    tickets.add(7, 1, 0);
    tickets.mark(1);
    tickets.clear();
    assert_eq!(rt; tickets.next_overtaken(), None);
    assert_eq!(rt; tickets.of_threads.get(&1).copied(), None);
    Ok(())
}
