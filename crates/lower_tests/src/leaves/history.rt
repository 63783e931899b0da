//! Histories: their entries and steps.
use hs_rules::{Entry, History};
use std::test::Fail;

#[test]
fn hello_takes_three_steps(rt: HostRuntime) -> Result<(), Fail> {
    let mut history = History::new(rt.alloc());
    assert!(rt; history.is_empty());
    history.push(Entry::Local { t: 0, k: 1 })?;
    history.push(Entry::Op { t: 0 })?;
    history.push(Entry::Finish { t: 0 })?;
    assert_eq!(rt; history.len(), 3);
    assert_eq!(rt; history.at(1), Some(Entry::Op { t: 0 }));
    assert_eq!(rt; history.at(3), None);
    assert_eq!(rt; history.steps(), 3);
    Ok(())
}

#[test]
fn a_local_counts_its_rules(rt: HostRuntime) -> Result<(), Fail> {
    let mut history = History::new(rt.alloc());
    history.push(Entry::Local { t: 1, k: 1_024 })?;
    history.push(Entry::Tick { at: 5 })?;
    history.push(Entry::Wake { t: 1 })?;
    history.push(Entry::Receive { t: 1 })?;
    assert_eq!(rt; history.steps(), 1_027);
    history.push(Entry::Stranded)?;
    assert_eq!(rt; history.steps(), 1_028);
    Ok(())
}
