//! The deques, and a pass for each hand to each of them.
ghost use Rattle.std.specs.Prelude.{◌≡◌, ◌⊎◌, ◌+◌, ◌-◌, ◌<◌, ◌≤◌, ℕ, true, length, Some, [], IfOk, OnOk, slice_get};
ghost use Rattle.conc_hands.specs.queues.QueueRule.{view_with};
ghost use Rattle.conc_hands.specs.queues.Deques.{deque_view, deque_id, room_of, door_id, pass_view, IsDequePass};
ghost use Rattle.conc_hands.specs.Dealing.{IsLaidOut, AreRows, dealt_if};
ghost use Rattle.conc_hands.specs.Ends.{share_if};

use crate::queues::{Deque, DequePass, Door};
use hs_base::NoMemory;
use hs_rules::Ticketed;
use rules_code::CodeBody;
use std::alloc::{AllocError, Global};

/// The ends of all deques, before they are put into hands. A row is one hand's passes.
pub(crate) struct Dealt<J: Ticketed> {
    pub(crate) deques: Vec<Deque<J>>,
    pub(crate) doors: Vec<Door<J>>,
    pub(crate) rows: Vec<Vec<DequePass<J>>>,
}

pub(crate) fn lay_out<J: Ticketed + Drop>(
    alloc: Global,
    caps: u32,
    code: &CodeBody,
) -> Result<Dealt<J>, NoMemory>
    requires { (0 < caps) × (caps ≤ 16) }
    ensures { IfOk result (λ d. IsLaidOut code.now caps d.deques.items d.doors.items d.rows.items) }
{
    let mut deques = Vec::new(alloc);
    let mut doors = Vec::new(alloc);
    let mut rows = empty_rows(alloc, caps)?;
    let mut number = 0;
    while number < caps {
        let (mut deque, door) = Deque::new(alloc, code)?;
        doors.push(door).map_err(AllocError::from)?;
        deal(&mut rows, &mut deque, &doors, code)?;
        deques.push(deque).map_err(AllocError::from)?;
        number += 1;
    }
    Ok(Dealt {
        deques,
        doors,
        rows,
    })
}

fn empty_rows<J: Ticketed + Drop>(
    alloc: Global,
    caps: u32,
) -> Result<Vec<Vec<DequePass<J>>>, NoMemory>
    ensures { IfOk result (λ rows. (length rows.items ≡ caps) × ((q : ℕ) (row : _) → slice_get rows.items q ≡ Some row → row.items ≡ [])) }
{
    let mut rows = Vec::new(alloc);
    let mut number = 0;
    while number < caps {
        rows.push(Vec::new(alloc)).map_err(AllocError::from)?;
        number += 1;
    }
    Ok(rows)
}

// Deals passes of the last deque, one to each row; the row of its owner gets a spent one.
fn deal<J: Ticketed + Drop>(
    rows: &mut Vec<Vec<DequePass<J>>>,
    deque: &mut Deque<J>,
    doors: &Vec<Door<J>>,
    code: &CodeBody,
) -> Result<(), NoMemory>
    requires few { (0 < length doors.now.items) × (length doors.now.items ≤ length rows.old.items) × (length rows.old.items ≤ 16) }
    requires rows { AreRows doors.now.items code.now (length doors.now.items - 1) 0 rows.old.items }
    requires deque { (deque_view deque.old ≡ view_with (Some code.now) 16 [] []) × ((d : _) → slice_get doors.now.items (length doors.now.items - 1) ≡ Some d → deque_id deque.old ≡ door_id d) }
    ensures rows { OnOk result ((length rows.new.items ≡ length rows.old.items) × AreRows doors.now.items code.now (length doors.now.items) 0 rows.new.items) }
    ensures deque { OnOk result ((deque_id deque.new ≡ deque_id deque.old) × (room_of deque.new ≡ room_of deque.old) × (deque_view deque.new ≡ view_with (Some code.now) (17 - length rows.old.items) [] [])) }
{
    let own = doors.len() - 1;
    let mut at = 0;
    while at < rows.len() {
        let pass = pass_of(deque, &doors[own], at == own);
        rows[at].push(pass).map_err(AllocError::from)?;
        at += 1;
    }
    Ok(())
}

// A pass with one share, or for the owner a spent one.
fn pass_of<J: Ticketed>(deque: &mut Deque<J>, door: &Door<J>, own: bool) -> DequePass<J>
    requires { (1 < (deque_view deque.old).shares) ⊎ (own ≡ true) }
    ensures same { (deque_id deque.new ≡ deque_id deque.old) × (room_of deque.new ≡ room_of deque.old) }
    ensures deque { let v = deque_view deque.old in deque_view deque.new ≡ view_with v.code (v.shares - share_if own) v.put v.taken }
    ensures pass { pass_view result ≡ dealt_if (deque_view deque.old).code own }
    ensures of { deque_id deque.old ≡ door_id door.now → IsDequePass (door_id door.now) result }
{
    if own {
        door.spent_pass()
    } else {
        deque.another()
    }
}
