//! The longest ranges of columns over which a lane shows the same.
ghost use Rattle.std.specs.Prelude.{◌≡◌, ◌+◌, ◌<◌, ◌^◌, ◌==◌, ◌&&◌, map, length, IfOk, OnOk, slice_get, vec_items};
ghost use Rattle.lane_picture.specs.Marks.{same_mask, same_doing, same_look, same_bool, look_at, thread_look, cell_look, spans_of};
ghost use Rattle.lane_picture.specs.Growing.{with_next, next_look};

use crate::film::{Doing, Frame, Lane, Look, Pose};
use hs_base::{Mask, NoMemory};
use std::alloc::{AllocError, Global};

/// Columns over which a lane shows the same: the first, and the first behind the last.
#[derive(Clone, Copy)]
pub(crate) struct Span {
    pub from: u32,
    pub to: u32,
    pub look: Look,
}

fn is_same_mask(one: Mask, other: Mask) -> bool
    ensures { result ≡ same_mask one other }
{
    match (one, other) {
        (Mask::Unmasked, Mask::Unmasked) => true,
        (Mask::Masked, Mask::Masked) => true,
        (Mask::Uninterruptible, Mask::Uninterruptible) => true,
        (_, _) => false,
    }
}

fn is_same_doing(one: Doing, other: Doing) -> bool
    ensures { result ≡ same_doing one other }
{
    match (one, other) {
        (Doing::Running, Doing::Running) => true,
        (Doing::Taking(m), Doing::Taking(n)) => m == n,
        (Doing::Reading(m), Doing::Reading(n)) => m == n,
        (Doing::Putting(m), Doing::Putting(n)) => m == n,
        (Doing::Throwing(t), Doing::Throwing(u)) => t == u,
        (Doing::Sleeping(a), Doing::Sleeping(b)) => a == b,
        (_, _) => false,
    }
}

fn is_same_bool(one: bool, other: bool) -> bool
    ensures { result ≡ same_bool one other }
{
    if one { other } else { !other }
}

fn is_same(one: Look, other: Look) -> bool
    ensures { result ≡ same_look one other }
{
    match (one, other) {
        (Look::Thread(p), Look::Thread(q)) => {
            is_same_doing(p.doing, q.doing) && is_same_mask(p.mask, q.mask)
        }
        (Look::Cell(a), Look::Cell(b)) => is_same_bool(a, b),
        (_, _) => false,
    }
}

fn pose_look(pose: Option<Option<Pose>>) -> Option<Look>
    ensures { result ≡ thread_look pose }
{
    match pose {
        Some(Some(pose)) => Some(Look::Thread(pose)),
        Some(None) => None,
        None => None,
    }
}

fn full_look(full: Option<bool>) -> Option<Look>
    ensures { result ≡ cell_look full }
{
    match full {
        Some(full) => Some(Look::Cell(full)),
        None => None,
    }
}

/// What the lane shows in a frame.
fn look(frame: &Frame, lane: Lane) -> Option<Look>
    ensures { result ≡ look_at lane frame.now }
{
    match lane {
        Lane::Thread(t) => pose_look(frame.poses.get(t as usize).copied()),
        Lane::Cell(m) => full_look(frame.cells.get(m as usize).copied()),
        Lane::Clock => None,
    }
}

/// Whether a column that shows this belongs to the span before it.
fn joins(last: Span, column: u32, look: Look) -> bool
    ensures { result ≡ (column == last.to) && same_look last.look look }
{
    column == last.to && is_same(last.look, look)
}

/// One more column.
fn add(spans: &mut Vec<Span>, column: u32, look: Look) -> Result<(), AllocError>
    requires { column + 1 < 2 ^ 32 }
    ensures { OnOk result (vec_items spans.new ≡ with_next column look (vec_items spans.old)) }
{
    let next = Span {
        from: column,
        to: column + 1,
        look,
    };
    let Some(last) = spans.pop() else {
        spans.push(next)?;
        return Ok(());
    };
    if joins(last, column, look) {
        spans.push(Span {
            from: last.from,
            to: column + 1,
            look: last.look,
        })?;
        return Ok(());
    }
    spans.push(last)?;
    spans.push(next)?;
    Ok(())
}

/// One more column, which shows something or nothing.
fn add_column(spans: &mut Vec<Span>, column: u32, look: Option<Look>) -> Result<(), AllocError>
    requires { column + 1 < 2 ^ 32 }
    ensures { OnOk result (vec_items spans.new ≡ next_look column look (vec_items spans.old)) }
{
    match look {
        Some(look) => add(spans, column, look),
        None => Ok(()),
    }
}

/// The spans of a lane.
pub(crate) fn lane_spans(alloc: Global, film: &[Frame], lane: Lane) -> Result<Vec<Span>, NoMemory>
    requires { length film.now < 2 ^ 32 }
    ensures { IfOk result (λ v. vec_items v ≡ spans_of (map (look_at lane) film.now)) }
{
    let mut spans = Vec::new(alloc);
    let mut column = 0u32;
    for frame in film {
        add_column(&mut spans, column, look(frame, lane))?;
        column += 1;
    }
    Ok(spans)
}
