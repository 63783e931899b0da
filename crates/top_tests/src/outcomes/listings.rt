//! What is listed.
use hs_base::{NoMemory, Txt};
use hs_items::Items;
use hs_rules::{Entry, History, LimitKind};
use outcome_listing::{Cause, Endless, Explored, Extent, Final, Outcome, listing};
use std::alloc::Global;
use std::test::Fail;

/// A history of so many entries.
fn history(alloc: Global, entries: u32) -> Result<History, NoMemory> {
    let mut history = History::new(alloc);
    for _ in 0..entries {
        history.push(Entry::Op { t: 0 })?;
    }
    Ok(history)
}

fn outcome(
    alloc: Global,
    end: Final,
    entries: u32,
    out: &str,
    err: &str,
) -> Result<Outcome, NoMemory> {
    Ok(Outcome {
        end,
        out: Txt::of(alloc, out)?,
        err: Txt::of(alloc, err)?,
        witness: history(alloc, entries)?,
    })
}

/// All there is, where every schedule ends.
fn explored(outcomes: Items<Outcome>, states: u32) -> Explored {
    Explored {
        outcomes,
        extent: Extent::All,
        endless: Endless::Never,
        states,
    }
}

#[test]
fn each_outcome_has_its_block(rt: HostRuntime) -> Result<(), Fail> {
    let alloc = rt.alloc();
    let killed = "uncaught exception in main: thread killed\n";
    let mut outcomes = Items::new(alloc);
    outcomes.add(outcome(alloc, Final::Done, 10, "m", "")?)?;
    outcomes.add(outcome(alloc, Final::Uncaught, 9, "", killed)?)?;
    outcomes.add(outcome(alloc, Final::Uncaught, 11, "t", killed)?)?;
    let text = listing(alloc, &explored(outcomes, 18))?;
    assert_eq!(rt;
        text.as_str(),
        "3 outcomes, and there are no others\n18 states; every schedule ends\n\n1. done, after 10 entries\n   output:\n     : m\n2. uncaught, after 9 entries\n   output: none\n   errors:\n     | uncaught exception in main: thread killed\n3. uncaught, after 11 entries\n   output:\n     : t\n   errors:\n     | uncaught exception in main: thread killed\n"
    );
    Ok(())
}

#[test]
fn one_outcome_is_not_many(rt: HostRuntime) -> Result<(), Fail> {
    let alloc = rt.alloc();
    let mut outcomes = Items::new(alloc);
    outcomes.add(outcome(alloc, Final::Deadlock, 1, "a\n\nb", "")?)?;
    let text = listing(alloc, &explored(outcomes, 1))?;
    assert_eq!(rt;
        text.as_str(),
        "1 outcome, and there are no others\n1 states; every schedule ends\n\n1. deadlock, after 1 entries\n   output:\n     | a\n     | \n     : b\n"
    );
    Ok(())
}

#[test]
fn where_none_is_listed_there_is_no_block(rt: HostRuntime) -> Result<(), Fail> {
    let alloc = rt.alloc();
    let found = Explored {
        outcomes: Items::new(alloc),
        extent: Extent::NotAll(Cause::Clock, history(alloc, 2)?),
        endless: Endless::Unknown,
        states: 5,
    };
    let text = listing(alloc, &found)?;
    assert_eq!(rt;
        text.as_str(),
        "0 outcomes, and there may be others: clock\n5 states; whether every schedule ends is not known\n"
    );
    Ok(())
}

#[test]
fn a_limit_is_named(rt: HostRuntime) -> Result<(), Fail> {
    let alloc = rt.alloc();
    let found = Explored {
        outcomes: Items::new(alloc),
        extent: Extent::NotAll(Cause::Limit(LimitKind::Frames), history(alloc, 1)?),
        endless: Endless::Round {
            to: history(alloc, 1)?,
            round: history(alloc, 2)?,
        },
        states: 1000,
    };
    let text = listing(alloc, &found)?;
    assert_eq!(rt;
        text.as_str(),
        "0 outcomes, and there may be others: limit: frames\n1000 states; a schedule may run for ever\n"
    );
    Ok(())
}
