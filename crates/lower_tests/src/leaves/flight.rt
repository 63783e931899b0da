//! Exceptions in flight, and sleepers.
use exn_flight::{Flight, Sleepers};
use hs_base::Exn;
use std::test::Fail;

#[test]
fn exceptions_in_flight(rt: HostRuntime) -> Result<(), Fail> {
    let mut flight = Flight::new(rt.alloc());
    flight.room(2)?;
    assert!(rt; flight.first_for(2).is_none());
    flight.throw_at(0, 2, Exn::ThreadKilled);
    flight.throw_at(1, 2, Exn::Overflow);
    assert!(rt; flight.most() >= 2);
    assert!(rt; matches!(flight.first_for(2), Some((0, Exn::ThreadKilled))));
    assert!(rt; matches!(&flight.withdraw(0), Some(Exn::ThreadKilled)));
    assert!(rt; matches!(&flight.deliver(2), Some((1, Exn::Overflow))));
    assert!(rt; flight.deliver(2).is_none());
    Ok(())
}

#[test]
fn sleepers_by_due(rt: HostRuntime) -> Result<(), Fail> {
    let mut sleepers = Sleepers::new(rt.alloc());
    sleepers.room(2)?;
    sleepers.add(1, 20);
    sleepers.add(2, 10);
    assert_eq!(rt; sleepers.first_due(), Some(10));
    assert_eq!(rt; sleepers.due(9), None);
    assert_eq!(rt; sleepers.due(20), Some(2));
    assert!(rt; sleepers.remove(2));
    assert!(rt; !sleepers.remove(2));
    Ok(())
}
