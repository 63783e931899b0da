//! All capabilities, half of them on another thread.
ghost use Rattle.std.specs.Prelude.{◌≡◌, ◌+◌, ◌<◌, ◌≤◌, All, length, vec_len, IfOk, IfSome, MatchOption};
ghost use Rattle.std.specs.Thread.{IsSync, IsSend};
ghost use mathlib.Core.List.{IsPrefix};
ghost use Rattle.rules_code.specs.Codes.{body_of};
ghost use Rattle.hs_rules.specs.declared.kept.Plan.{Plan};
ghost use Rattle.conc_turn.specs.Seats.{seen_by, shares_of, IsLater};
ghost use Rattle.conc_turn.specs.Turns.{IsSeatOf, turn_plan};
ghost use Rattle.conc_hands.specs.Hands.{IsHandOf, hands_code, hands_count};
ghost use Rattle.conc_hands.specs.Lists.{hands_in};
ghost use Rattle.conc_hands.specs.declared.hands.Hands.{Hands};
ghost use Rattle.caps_loop.specs.Halves.{IsHalf};

use caps_visits::{Capability, Parkers, Runs, Shared, parkers_for, work};
use conc_hands::{HandList, Hands};
use conc_turn::{Seat, Turn};
use hs_base::NoMemory;
use hs_io::Gate;
use hs_rules::{Code, Ticketed};
use std::alloc::Global;
use std::sync::Wait;
use std::thread::{Threads, join};

// What is made before the turn.
#[derive(Drop)]
struct Parts<J: Ticketed, S: Ticketed> {
    hands: Hands<J, S>,
    list: HandList<J, S>,
    code: Code,
    parkers: Parkers,
}

// The hands, the share of the code and the parkers of so many capabilities.
fn parts_for<D: Runs<J, S>, J: Ticketed + Drop, S: Ticketed + Drop>(
    alloc: Global,
    desk: &D,
    caps: u32,
) -> Result<Parts<J, S>, NoMemory>
    requires { (0 < caps) × (caps ≤ 16) }
    ensures code { IfOk result (λ g. (hands_code g.hands ≡ (D.plan desk.now).body) × (body_of g.code ≡ hands_code g.hands)) }
    ensures count { IfOk result (λ g. (hands_count g.hands ≡ caps) × (length (hands_in g.list) ≡ caps) × (vec_len g.parkers.berths ≡ caps)) }
    ensures list { IfOk result (λ g. All (IsHandOf g.hands) (hands_in g.list)) }
{
    let code = desk.code()?;
    let parkers = parkers_for(alloc, caps)?;
    let (hands, list) = Hands::new(alloc, caps, &code)?;
    Ok(Parts {
        hands,
        list,
        code,
        parkers,
    })
}

// With the first hand of the list. The others stay unused.
fn run_one<D: Runs<J, S>, J: Ticketed + Drop, S: Ticketed + Drop, G: Gate, R: Wait>(
    rt: &R,
    alloc: Global,
    shared: &Shared<'_, Turn<D>, J, S, G>,
    seat: Seat,
    list: HandList<J, S>,
) -> Seat
    requires seat { IsSeatOf D.plan shared.now.turn.now seat }
    requires some { 0 < length (hands_in list) }
    requires list { All (IsHandOf shared.now.hands.now) (hands_in list) }
    ensures { IsLater seat result }
{
    let mut list = list;
    let hand = list.take().unwrap();
    let me = Capability { seat, hand };
    let Capability { seat, hand: _hand } = work(rt, alloc, shared, me);
    seat
}

// Takes the last hands out; or none, where none are asked for or memory is refused.
fn cut_list<J: Ticketed + Drop, S: Ticketed + Drop>(
    list: HandList<J, S>,
    count: u32,
) -> (HandList<J, S>, Option<HandList<J, S>>)
    requires { count ≤ length (hands_in list) }
    ensures counts { MatchOption result.1 (result.0 ≡ list) (λ others. (0 < count) × (length (hands_in result.0) + count ≡ length (hands_in list)) × (length (hands_in others) ≡ count)) }
    ensures first { (h : Hands J S) → All (IsHandOf h) (hands_in list) → All (IsHandOf h) (hands_in result.0) }
    ensures last { IfSome result.1 (λ others. (h : Hands J S) → All (IsHandOf h) (hands_in list) → All (IsHandOf h) (hands_in others)) }
{
    let mut list = list;
    if count == 0 {
        return (list, None);
    }
    match list.halve(count) {
        Ok(others) => (list, Some(others)),
        Err(NoMemory) => (list, None),
    }
}

#[cycle(halves)]
fn run<
    D: Runs<J, S> + Send,
    J: Ticketed + Drop + Send,
    S: Ticketed + Drop + Send,
    G: Gate + Sync,
    R: Threads + Wait + Sync,
>(
    rt: &R,
    alloc: Global,
    turn: &Turn<D>,
    hands: &Hands<J, S>,
    code: &Code,
    parkers: &Parkers,
    gate: &G,
    seat: Seat,
    list: HandList<J, S>,
    count: u32,
) -> Seat
    requires seat { IsSeatOf D.plan turn.now seat }
    requires count { (0 < count) × (count ≤ shares_of seat) × (length (hands_in list) ≡ count) }
    requires list { All (IsHandOf hands.now) (hands_in list) }
    requires code { (hands_code hands.now ≡ (turn_plan D.plan turn.now).body) × (body_of code.now ≡ hands_code hands.now) }
    requires parkers { vec_len parkers.now.berths ≡ hands_count hands.now }
    ensures { IsLater seat result }
{
    let theirs = count / 2;
    let (list, others) = cut_list(list, theirs);
    let Some(their_list) = others else {
        let shared = Shared {
            turn,
            hands,
            code,
            parkers,
            gate,
        };
        return run_one(rt, alloc, &shared, seat, list);
    };
    let mine = count - theirs;
    let (my_seat, their_seat) = turn.split(seat, theirs);
    let left = move || -> Seat
        requires { IsSync R.row × IsSync G.row × IsSend D.row × IsSend J.row × IsSend S.row × IsHalf D.plan turn.now hands.now code.now parkers.now my_seat list mine }
        ensures { IsLater my_seat result }
    {
        run(
            rt, alloc, turn, hands, code, parkers, gate, my_seat, list, mine,
        )
    };
    let right = move || -> Seat
        requires { IsSync R.row × IsSync G.row × IsSend D.row × IsSend J.row × IsSend S.row × IsHalf D.plan turn.now hands.now code.now parkers.now their_seat their_list theirs }
        ensures { IsLater their_seat result }
    {
        run(
            rt, alloc, turn, hands, code, parkers, gate, their_seat, their_list, theirs,
        )
    };
    let (a, b) = join(rt, left, right);
    turn.join(a, b)
}

// Runs it to an ending with one capability, where there is none yet.
fn finished<D: Runs<J, S>, J: Ticketed, S: Ticketed>(desk: D) -> D
    ensures plan { D.plan result ≡ D.plan desk }
    ensures history { IsPrefix (D.history desk) (D.history result) }
    ensures ended { D.has_ended result }
{
    let mut desk = desk;
    desk.alone();
    desk
}

// Where something can't be made.
fn refused<D: Runs<J, S>, J: Ticketed, S: Ticketed>(desk: D) -> D
    ensures plan { D.plan result ≡ D.plan desk }
    ensures history { IsPrefix (D.history desk) (D.history result) }
    ensures ended { D.has_ended result }
{
    let mut desk = desk;
    desk.no_memory();
    finished(desk)
}

/// Runs the value to an ending with so many capabilities.
///
/// Half of them run on another thread, and so on; each that starts a thread waits for it. Where memory for what they share is
/// refused there is an ending at once; where it is refused for a half, one capability does the work of that half.
pub fn run_caps<
    D: Runs<J, S> + Send,
    J: Ticketed + Drop + Send,
    S: Ticketed + Drop + Send,
    G: Gate + Sync,
    R: Threads + Wait + Sync,
>(alloc: Global, rt: &R, desk: D, caps: u32, gate: &G) -> D
    requires { (2 ≤ caps) × (caps ≤ 16) }
    ensures plan { D.plan result ≡ D.plan desk }
    ensures history { IsPrefix (D.history desk) (D.history result) }
    ensures ended { D.has_ended result }
{
    let Ok(
        Parts {
            hands,
            list,
            code,
            parkers,
        },
    ) = parts_for(alloc, &desk, caps)
    else {
        return refused(desk);
    };
    match Turn::new(alloc, desk) {
        Ok((turn, seat)) => {
            let seat = run(
                rt, alloc, &turn, &hands, &code, &parkers, gate, seat, list, caps,
            );
            finished(turn.close(seat))
        }
        Err(desk) => refused(desk),
    }
}
