//! The sentences of the marks.
ghost use Rattle.std.specs.Prelude.{◌≡◌, ◌++◌, OnOk, codes, string_bytes};
ghost use Rattle.std.specs.Fmt.{decimal};
ghost use Rattle.lane_picture.specs.Marks.{doing_in, doing_of};
ghost use Rattle.lane_picture.specs.Words.{lane_name, exn_name, doing_words, mask_words, look_words, stays_words, deed_words, waits_words, event_words, entry_words, happens_words, answers_words, strands_words};

use crate::film::{Deed, Doing, Event, Frame, Lane, Look, Pose};
use hs_base::{Exn, Mask};
use std::alloc::AllocError;

fn write_lane(text: &mut String, lane: Lane) -> Result<(), AllocError>
    ensures { OnOk result (string_bytes text.new ≡ string_bytes text.old ++ lane_name lane) }
{
    match lane {
        Lane::Thread(t) => write!(text, "thread {t}"),
        Lane::Cell(m) => write!(text, "cell {m}"),
        Lane::Clock => text.push_str("the clock"),
    }
}

/// An exception by its constructor.
pub(crate) fn write_exn(text: &mut String, exn: &Exn) -> Result<(), AllocError>
    ensures { OnOk result (string_bytes text.new ≡ string_bytes text.old ++ exn_name exn.now) }
{
    match exn {
        Exn::ErrorCall(x) => {
            text.push_str("ErrorCall ")?;
            text.push_str(x.as_str())
        }
        Exn::ThreadKilled => text.push_str("ThreadKilled"),
        Exn::UserInterrupt => text.push_str("UserInterrupt"),
        Exn::DivideByZero => text.push_str("DivideByZero"),
        Exn::Overflow => text.push_str("Overflow"),
        Exn::Timeout(_) => text.push_str("Timeout"),
        Exn::TextLimit => text.push_str("TextLimit"),
        Exn::BlockedIndefinitely => text.push_str("BlockedIndefinitely"),
    }
}

fn write_doing(text: &mut String, doing: Doing) -> Result<(), AllocError>
    ensures { OnOk result (string_bytes text.new ≡ string_bytes text.old ++ doing_words doing) }
{
    match doing {
        Doing::Running => text.push_str("runs"),
        Doing::Taking(m) => write!(text, "waits to take from cell {m}"),
        Doing::Reading(m) => write!(text, "waits to read cell {m}"),
        Doing::Putting(m) => write!(text, "waits to put to cell {m}"),
        Doing::Throwing(t) => write!(text, "waits until thread {t} has received its exception"),
        Doing::Sleeping(due) => write!(text, "sleeps until {due} microseconds"),
    }
}

fn write_mask(text: &mut String, mask: Mask) -> Result<(), AllocError>
    ensures { OnOk result (string_bytes text.new ≡ string_bytes text.old ++ mask_words mask) }
{
    match mask {
        Mask::Unmasked => Ok(()),
        Mask::Masked => text.push_str(", masked"),
        Mask::Uninterruptible => text.push_str(", masked uninterruptibly"),
    }
}

fn write_look(text: &mut String, look: Look) -> Result<(), AllocError>
    ensures { OnOk result (string_bytes text.new ≡ string_bytes text.old ++ look_words look) }
{
    match look {
        Look::Thread(pose) => {
            write_doing(text, pose.doing)?;
            write_mask(text, pose.mask)
        }
        Look::Cell(true) => text.push_str("is full"),
        Look::Cell(false) => text.push_str("is empty"),
    }
}

/// What a lane shows from a column on.
pub(crate) fn write_stays(
    text: &mut String,
    lane: Lane,
    from: u32,
    look: Look,
) -> Result<(), AllocError>
    ensures { OnOk result (string_bytes text.new ≡ string_bytes text.old ++ stays_words lane from look) }
{
    write_lane(text, lane)?;
    text.push_str(" ")?;
    write_look(text, look)?;
    write!(text, ", from entry {from} on")
}

/// Two texts in a row.
fn push_both(text: &mut String, one: &str, other: &str) -> Result<(), AllocError>
    ensures { OnOk result (string_bytes text.new ≡ string_bytes text.old ++ (one.now ++ other.now)) }
{
    text.push_str(one)?;
    text.push_str(other)
}

/// A text and a number behind it.
fn push_number(text: &mut String, one: &str, n: usize) -> Result<(), AllocError>
    ensures { OnOk result (string_bytes text.new ≡ string_bytes text.old ++ (one.now ++ decimal n)) }
{
    write!(text, "{one}{n}")
}

/// A text.
fn push(text: &mut String, one: &str) -> Result<(), AllocError>
    ensures { OnOk result (string_bytes text.new ≡ string_bytes text.old ++ one.now) }
{
    text.push_str(one)
}

fn write_throws(text: &mut String, t: u32, exn: &Exn) -> Result<(), AllocError>
    ensures { OnOk result (string_bytes text.new ≡ string_bytes text.old ++ (codes "throws " ++ exn_name exn.now ++ codes " at thread " ++ decimal t)) }
{
    text.push_str("throws ")?;
    write_exn(text, exn)?;
    write!(text, " at thread {t}")
}

fn write_deed(text: &mut String, before: &Frame, deed: &Deed) -> Result<(), AllocError>
    ensures { OnOk result (string_bytes text.new ≡ string_bytes text.old ++ deed_words before.now deed.now) }
{
    match deed {
        Deed::Prints(x) => push_both(text, "prints ", x.as_str()),
        Deed::Reports(x) => push_both(text, "prints on error output ", x.as_str()),
        Deed::MakesCell => push_number(text, "makes cell ", before.cells.len()),
        Deed::Takes(m) => push_number(text, "takes from cell ", *m as usize),
        Deed::Reads(m) => push_number(text, "reads cell ", *m as usize),
        Deed::Puts(m) => push_number(text, "puts to cell ", *m as usize),
        Deed::TriesToTake(m) => push_number(text, "tries to take from cell ", *m as usize),
        Deed::TriesToPut(m) => push_number(text, "tries to put to cell ", *m as usize),
        Deed::Forks => push_number(text, "forks thread ", before.poses.len()),
        Deed::Throws(t, exn) => write_throws(text, *t, exn),
        Deed::Delays => push(text, "asks for a delay"),
        Deed::Acquires => push(text, "has acquired what its bracket guards"),
        Deed::Releases => push(text, "releases what its bracket guards"),
        Deed::Asks => push(text, "asks for its number, its mask, the time or a timeout"),
    }
}

fn write_waits(text: &mut String, doing: Doing) -> Result<(), AllocError>
    ensures { OnOk result (string_bytes text.new ≡ string_bytes text.old ++ waits_words doing) }
{
    match doing {
        Doing::Running => Ok(()),
        _ => text.push_str(", and waits"),
    }
}

fn doing(pose: Option<Option<Pose>>) -> Doing
    ensures { result ≡ doing_of pose }
{
    match pose {
        Some(Some(pose)) => pose.doing,
        Some(None) => Doing::Running,
        None => Doing::Running,
    }
}

/// What a thread does in a frame.
pub(crate) fn thread_doing(frame: &Frame, t: u32) -> Doing
    ensures { result ≡ doing_in frame.now t }
{
    doing(frame.poses.get(t as usize).copied())
}

fn write_receives(
    text: &mut String,
    t: u32,
    from: u32,
    exn: &Exn,
    while_it: Doing,
) -> Result<(), AllocError>
    ensures { OnOk result (string_bytes text.new ≡ string_bytes text.old ++ (codes "thread " ++ decimal t ++ codes " receives " ++ exn_name exn.now ++ codes " from thread " ++ decimal from ++ codes " while it " ++ doing_words while_it)) }
{
    write!(text, "thread {t} receives ")?;
    write_exn(text, exn)?;
    write!(text, " from thread {from} while it ")?;
    write_doing(text, while_it)
}

fn write_steps(text: &mut String, t: u32, k: u32) -> Result<(), AllocError>
    ensures { OnOk result (string_bytes text.new ≡ string_bytes text.old ++ (codes "thread " ++ decimal t ++ codes " makes local steps: " ++ decimal k)) }
{
    write!(text, "thread {t} makes local steps: {k}")
}

fn write_does(
    text: &mut String,
    t: u32,
    before: &Frame,
    deed: &Deed,
    then: Doing,
) -> Result<(), AllocError>
    ensures { OnOk result (string_bytes text.new ≡ string_bytes text.old ++ (codes "thread " ++ decimal t ++ codes " " ++ deed_words before.now deed.now ++ waits_words then)) }
{
    write!(text, "thread {t} ")?;
    write_deed(text, before, deed)?;
    write_waits(text, then)
}

fn write_wakes(text: &mut String, t: u32) -> Result<(), AllocError>
    ensures { OnOk result (string_bytes text.new ≡ string_bytes text.old ++ (codes "thread " ++ decimal t ++ codes " wakes")) }
{
    write!(text, "thread {t} wakes")
}

fn write_returns(text: &mut String, t: u32) -> Result<(), AllocError>
    ensures { OnOk result (string_bytes text.new ≡ string_bytes text.old ++ (codes "thread " ++ decimal t ++ codes " has finished by a value")) }
{
    write!(text, "thread {t} has finished by a value")
}

fn write_fails(text: &mut String, t: u32, exn: &Exn) -> Result<(), AllocError>
    ensures { OnOk result (string_bytes text.new ≡ string_bytes text.old ++ (codes "thread " ++ decimal t ++ codes " has finished by " ++ exn_name exn.now)) }
{
    write!(text, "thread {t} has finished by ")?;
    write_exn(text, exn)
}

fn write_ticks(text: &mut String, at: u64) -> Result<(), AllocError>
    ensures { OnOk result (string_bytes text.new ≡ string_bytes text.old ++ (codes "the clock is at " ++ decimal at ++ codes " microseconds")) }
{
    write!(text, "the clock is at {at} microseconds")
}

#[tactic(auto, unfolding(crate::specs::Words::entry_words))]
fn write_entry(text: &mut String, column: u32) -> Result<(), AllocError>
    ensures { OnOk result (string_bytes text.new ≡ string_bytes text.old ++ entry_words column) }
{
    write!(text, "entry {column}: ")
}

fn write_cell_answers(text: &mut String, cell: u32, thread: u32) -> Result<(), AllocError>
    ensures { OnOk result (string_bytes text.new ≡ string_bytes text.old ++ (codes "cell " ++ decimal cell ++ codes " answers thread " ++ decimal thread)) }
{
    write!(text, "cell {cell} answers thread {thread}")
}

fn write_thread_stranded(text: &mut String, thread: u32, cell: u32) -> Result<(), AllocError>
    ensures { OnOk result (string_bytes text.new ≡ string_bytes text.old ++ (codes "thread " ++ decimal thread ++ codes " gets BlockedIndefinitely at cell " ++ decimal cell)) }
{
    write!(
        text,
        "thread {thread} gets BlockedIndefinitely at cell {cell}"
    )
}

fn write_event(
    text: &mut String,
    before: &Frame,
    after: &Frame,
    event: &Event,
) -> Result<(), AllocError>
    ensures { OnOk result (string_bytes text.new ≡ string_bytes text.old ++ event_words before.now after.now event.now) }
{
    match event {
        Event::Nothing => Ok(()),
        Event::Steps(t, k) => write_steps(text, *t, *k),
        Event::Does(t, deed) => write_does(text, *t, before, deed, thread_doing(after, *t)),
        Event::Receives(t, from, exn) => write_receives(
            text,
            *t,
            *from,
            exn,
            thread_doing(before, *t),
        ),
        Event::Wakes(t) => write_wakes(text, *t),
        Event::Returns(t) => write_returns(text, *t),
        Event::Fails(t, exn) => write_fails(text, *t, exn),
        Event::Ticks(at) => write_ticks(text, *at),
        Event::Strands => Ok(()),
    }
}

/// What the entry of a column does.
pub(crate) fn write_happens(
    text: &mut String,
    column: u32,
    before: &Frame,
    after: &Frame,
) -> Result<(), AllocError>
    ensures { OnOk result (string_bytes text.new ≡ string_bytes text.old ++ happens_words column before.now after.now) }
{
    write_entry(text, column)?;
    write_event(text, before, after, &after.event)
}

/// A cell answers a thread.
pub(crate) fn write_answers(
    text: &mut String,
    column: u32,
    cell: u32,
    thread: u32,
) -> Result<(), AllocError>
    ensures { OnOk result (string_bytes text.new ≡ string_bytes text.old ++ answers_words column cell thread) }
{
    write_entry(text, column)?;
    write_cell_answers(text, cell, thread)
}

/// A thread is stranded at a cell.
pub(crate) fn write_strands(
    text: &mut String,
    column: u32,
    thread: u32,
    cell: u32,
) -> Result<(), AllocError>
    ensures { OnOk result (string_bytes text.new ≡ string_bytes text.old ++ strands_words column thread cell) }
{
    write_entry(text, column)?;
    write_thread_stranded(text, thread, cell)
}
