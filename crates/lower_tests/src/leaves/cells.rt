//! Cells and those that wait at them.
use hs_base::Value;
use mvar_cell::{Cells, Gave, Saw, Took, Tried};
use std::test::Fail;

/// The number in an integer value.
fn int_of(value: Value) -> i64 {
    match &value {
        Value::Int(n) => *n,
        _ => -2,
    }
}

/// The value and the thread that was served, or -1 where the call blocked.
fn took(answer: Took) -> (i64, i64) {
    match answer {
        Took::Blocks => (-1, -1),
        Took::Done(value) => (int_of(value), -1),
        Took::Served(value, putter) => (int_of(value), i64::from(putter)),
    }
}

/// The thread that was served and its value, or -1 where the call blocked, and 0 where it is done.
fn gave(answer: Gave) -> (i64, i64) {
    match answer {
        Gave::Blocks => (-1, -1),
        Gave::Done => (0, 0),
        Gave::Served(taker, value) => (i64::from(taker), int_of(value)),
    }
}

#[test]
fn waiters_are_served_in_order(rt: HostRuntime) -> Result<(), Fail> {
    let mut cells = Cells::new(rt.alloc());
    cells.room(8)?;
    assert_eq!(rt; cells.fresh(None), 0);
    assert_eq!(rt; took(cells.take(0, 1)), (-1, -1));
    assert_eq!(rt; took(cells.take(0, 2)), (-1, -1));
    assert_eq!(rt; gave(cells.put(0, 3, Value::Int(7))), (1, 7));
    assert_eq!(rt; gave(cells.put(0, 3, Value::Int(8))), (2, 8));
    assert_eq!(rt; gave(cells.put(0, 3, Value::Int(9))), (0, 0));
    Ok(())
}

/// The value that came back, or the thread that was served, or -1 where the cell was empty.
fn tried(answer: Tried) -> (i64, i64) {
    match answer {
        Tried::Full(value) => (int_of(value), -1),
        Tried::Done => (-1, -1),
        Tried::Served(taker, value) => (int_of(value), i64::from(taker)),
    }
}

#[test]
fn a_waiting_put_moves_in(rt: HostRuntime) -> Result<(), Fail> {
    let mut cells = Cells::new(rt.alloc());
    cells.room(8)?;
    assert_eq!(rt; cells.fresh(Some(Value::Int(9))), 0);
    assert_eq!(rt; gave(cells.put(0, 4, Value::Int(6))), (-1, -1));
    assert_eq!(rt; took(cells.take(0, 5)), (9, 4));
    assert!(rt; matches!(cells.content(0), Some(Value::Int(6))));
    Ok(())
}

#[test]
fn a_full_cell_hands_back(rt: HostRuntime) -> Result<(), Fail> {
    let mut cells = Cells::new(rt.alloc());
    cells.room(1)?;
    assert_eq!(rt; cells.fresh(Some(Value::Int(9))), 0);
    assert_eq!(rt; tried(cells.try_put(0, Value::Int(5))), (5, -1));
    Ok(())
}

#[test]
fn a_full_cell_gives(rt: HostRuntime) -> Result<(), Fail> {
    let mut cells = Cells::new(rt.alloc());
    cells.room(1)?;
    assert_eq!(rt; cells.fresh(Some(Value::Int(7))), 0);
    assert_eq!(rt; cells.len(), 1);
    assert!(rt; matches!(&cells.try_take(0), Some((Value::Int(7), None))));
    Ok(())
}

#[test]
fn a_waiter_leaves(rt: HostRuntime) -> Result<(), Fail> {
    let mut cells = Cells::new(rt.alloc());
    cells.room(4)?;
    assert_eq!(rt; cells.fresh(None), 0);
    assert_eq!(rt; took(cells.take(0, 1)), (-1, -1));
    cells.drop_waiter(0, 1);
    assert_eq!(rt; tried(cells.try_put(0, Value::Int(7))), (-1, -1));
    Ok(())
}

/// The value that was seen, or -1 where the call blocked.
fn saw(answer: Saw) -> i64 {
    match answer {
        Saw::Blocks => -1,
        Saw::Done(value) => int_of(value),
    }
}

#[test]
fn readers_leave_before_a_put(rt: HostRuntime) -> Result<(), Fail> {
    let mut cells = Cells::new(rt.alloc());
    cells.room(6)?;
    assert_eq!(rt; cells.fresh(None), 0);
    assert_eq!(rt; saw(cells.read(0, 1)?), -1);
    assert_eq!(rt; took(cells.take(0, 2)), (-1, -1));
    assert_eq!(rt; cells.next_reader(0), Some(1));
    assert_eq!(rt; cells.next_reader(0), None);
    assert_eq!(rt; gave(cells.put(0, 3, Value::Int(7))), (2, 7));
    Ok(())
}

#[test]
fn a_read_changes_nothing(rt: HostRuntime) -> Result<(), Fail> {
    let mut cells = Cells::new(rt.alloc());
    cells.room(6)?;
    assert_eq!(rt; cells.fresh(None), 0);
    assert_eq!(rt; gave(cells.put(0, 3, Value::Int(8))), (0, 0));
    assert_eq!(rt; saw(cells.read(0, 4)?), 8);
    assert!(rt; matches!(cells.content(0), Some(Value::Int(8))));
    Ok(())
}

#[test]
fn readers_behind_takers_come_first(rt: HostRuntime) -> Result<(), Fail> {
    let mut cells = Cells::new(rt.alloc());
    cells.room(8)?;
    assert_eq!(rt; cells.fresh(None), 0);
    assert_eq!(rt; took(cells.take(0, 1)), (-1, -1));
    assert_eq!(rt; saw(cells.read(0, 2)?), -1);
    assert_eq!(rt; saw(cells.read(0, 3)?), -1);
    assert_eq!(rt; cells.readers(0), 2);
    assert_eq!(rt; cells.next_reader(0), Some(2));
    assert_eq!(rt; cells.next_reader(0), Some(3));
    assert_eq!(rt; cells.next_reader(0), None);
    assert_eq!(rt; tried(cells.try_put(0, Value::Int(5))), (5, 1));
    Ok(())
}
