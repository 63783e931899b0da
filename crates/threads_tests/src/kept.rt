//! A kept value of the tests.
use hs_base::Limits;
use hs_rules::{History, Kept, Plan};
use rules_code::CodeBody;
use std::alloc::Global;
use std::snapshot::Snapshot;

/// A history beside a plan that no call changes.
#[derive(Drop)]
pub struct Log {
    pub follows: Snapshot<Plan>,
    pub entries: History,
}

impl Kept for Log {
    ghost plan = { λ l. l.follows.value };

    ghost history = { λ l. l.entries.list };
}

/// An empty history, under the plan of a run of this code.
pub fn a_log(alloc: Global, body: CodeBody) -> Log {
    let plan = Plan {
        body,
        fuel: 1_000,
        limits: Limits::shipped(),
        out_faults: 0,
        err_faults: 0,
        choice: None,
        early: 0,
    };
    let follows = Snapshot::of(&plan);
    let Plan {
        body: _body,
        fuel: _,
        limits: _,
        out_faults: _,
        err_faults: _,
        choice: _,
        early: _,
    } = plan;
    Log {
        follows,
        entries: History::new(alloc),
    }
}
