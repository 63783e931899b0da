use crate::{
    Pair, Signs, Task, a_body, a_code, a_log, close_four, close_two, four_hands, one_hand_cuts,
    run_four, ticket_of, tries_while_held, two_hands,
};
use caps_loop::run_caps;
use hs_base::Limits;
use hs_io::OpenGate;
use std::test::Fail;

#[test]
fn a_try_loses_while_another_seat_has_the_turn(rt: HostRuntime) -> Result<(), Fail> {
    let alloc = rt.alloc();
    let Some((lost, entries)) = tries_while_held(&rt, alloc, a_log(alloc, a_body(alloc)?)) else {
        panic!(rt; "memory")
    };
    assert_eq!(rt; lost, 1);
    assert_eq!(rt; entries, 2);
    Ok(())
}

#[test]
fn flags_of_one_hand(rt: HostRuntime) -> Result<(), Fail> {
    let alloc = rt.alloc();
    let code = a_code(alloc)?;
    assert_eq!(rt; one_hand_cuts(alloc, &code)?, (0, 65, 1));
    Ok(())
}

#[test]
fn two_hands_push_pop_and_steal(rt: HostRuntime) -> Result<(), Fail> {
    let alloc = rt.alloc();
    let code = a_code(alloc)?;
    let (hands, list, mut one, mut two) = two_hands(alloc, &code)?;
    assert!(rt; hands.push(&mut one, ticket_of(&code, 1)).is_ok());
    assert!(rt; hands.push(&mut one, ticket_of(&code, 2)).is_ok());
    assert!(rt; hands.push(&mut one, ticket_of(&code, 3)).is_ok());
    assert_eq!(rt; hands.pop(&mut one).map(|job| job.number), Some(1));
    assert_eq!(rt;
        hands.steal(&rt, &mut two, 0).map(|job| job.number),
        Some(2)
    );
    assert_eq!(rt; hands.pop(&mut one).map(|job| job.number), Some(3));
    assert!(rt; hands.pop(&mut one).is_none());
    assert!(rt; hands.steal(&rt, &mut two, 0).is_none());
    assert!(rt; hands.push(&mut one, ticket_of(&code, 4)).is_ok());
    let mut left = close_two(hands, list, one, two);
    assert_eq!(rt; left.jobs.next().map(|job| job.number), Some(4));
    assert!(rt; left.jobs.next().is_none());
    assert!(rt; left.slices.next(&rt).is_none());
    Ok(())
}

#[test]
fn a_steal_takes_the_oldest_job_of_the_hand_that_it_names(rt: HostRuntime) -> Result<(), Fail> {
    let alloc = rt.alloc();
    let code = a_code(alloc)?;
    let (hands, list, (mut zero, mut one), (mut two, mut three)) = four_hands(alloc, &code)?;
    assert!(rt; hands.push(&mut zero, ticket_of(&code, 1)).is_ok());
    assert!(rt; hands.push(&mut one, ticket_of(&code, 2)).is_ok());
    assert!(rt; hands.push(&mut one, ticket_of(&code, 3)).is_ok());
    assert!(rt; hands.push(&mut two, ticket_of(&code, 4)).is_ok());
    assert_eq!(rt;
        hands.steal(&rt, &mut three, 1).map(|job| job.number),
        Some(2)
    );
    assert_eq!(rt;
        hands.steal(&rt, &mut three, 2).map(|job| job.number),
        Some(4)
    );
    assert!(rt; hands.steal(&rt, &mut three, 2).is_none());
    assert_eq!(rt;
        hands.steal(&rt, &mut zero, 1).map(|job| job.number),
        Some(3)
    );
    let mut left = close_four(hands, list, (zero, one), (two, three));
    assert_eq!(rt; left.jobs.next().map(|job| job.number), Some(1));
    assert!(rt; left.jobs.next().is_none());
    Ok(())
}

#[test]
fn four_hands_lose_nothing(rt: HostRuntime) -> Result<(), Fail> {
    let alloc = rt.alloc();
    let code = a_code(alloc)?;
    let (tally, jobs, slices) = run_four(&rt, alloc, &code)?;
    assert_eq!(rt; tally.pushed.number, 4_000);
    assert_eq!(rt; tally.pushed, tally.taken.plus(jobs));
    assert_eq!(rt; tally.handed_in, tally.taken);
    assert_eq!(rt; tally.handed_in, tally.collected.plus(slices));
    Ok(())
}

#[test]
fn an_ending_cuts_the_slice_that_runs(rt: HostRuntime) -> Result<(), Fail> {
    let alloc = rt.alloc();
    let signs = Signs::new();
    let pair = Pair {
        code: a_code(alloc)?,
        limits: Limits::shipped(),
        given: 0,
        ended: false,
        signs: &signs,
    };
    let pair = run_caps::<Pair<'_>, Task<'_>, Task<'_>, OpenGate, HostRuntime>(
        alloc, &rt, pair, 2, &OpenGate,
    );
    assert!(rt; pair.ended);
    assert!(rt; signs.was_cut());
    Ok(())
}
