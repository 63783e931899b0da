//! Lines of waiting threads, and whom a value that comes or goes serves there.
ghost use Rattle.std.specs.Prelude.{◌≡◌, ◌++◌, ◌∷◌, [], ℕ, IfOk, OnOk};
ghost use Rattle.rules_waiting.specs.OneCell as one;
ghost use Rattle.rules_waiting.specs.OneCell.{after_of, cell_of, reply_of, joins_line, leaves_line, leave_line, readers, shown, moves_in, comes_on, comes_in};
ghost use Rattle.number_states.specs.waits.Places.{places, want_of, answers, answer_of, threads_of};

use crate::waits::places::{Answer, Place, Reply, Want};
use hs_base::NoMemory;

/// The thread waits at the end of a line.
pub fn join(line: &mut Vec<Place>, thread: u32, want: Want) -> Result<(), NoMemory>
    ensures { OnOk result (places line.new.items ≡ joins_line thread (want_of want) (places line.old.items)) }
{
    line.reserve(1)?;
    line.push_reserved(Place { thread, want });
    Ok(())
}

/// The thread waits in a line no more.
pub fn leave(line: &mut Vec<Place>, thread: u32)
    ensures { places line.new.items ≡ leaves_line thread (places line.old.items) }
{
    line.retain(|place| place.thread != thread);
}

/// The thread is answered.
pub fn reply(replies: &mut Vec<Reply>, thread: u32, answer: Answer) -> Result<(), NoMemory>
    ensures { OnOk result (answers replies.new.items ≡ answers replies.old.items ++ reply_of thread (answer_of answer) ∷ []) }
{
    replies.reserve(1)?;
    replies.push_reserved(Reply { thread, answer });
    Ok(())
}

/// The first of a line that waits to put, with its value.
fn first_put(line: &[Place]) -> Option<(u32, u32)>
    ensures { result ≡ one.first_put (places line.now) }
{
    for place in line {
        if let Want::Put(value) = place.want {
            return Some((place.thread, value));
        }
    }
    None
}

/// The first of a line that waits to take.
fn first_take(line: &[Place]) -> Option<u32>
    ensures { result ≡ one.first_take (places line.now) }
{
    for place in line {
        if let Want::Take = place.want {
            return Some(place.thread);
        }
    }
    None
}

/// Each that waits to read is answered the value, in order.
fn show(line: &[Place], value: u32, replies: &mut Vec<Reply>) -> Result<(), NoMemory>
    ensures { OnOk result (answers replies.new.items ≡ answers replies.old.items ++ shown value (readers (places line.now))) }
{
    for place in line {
        if let Want::Read = place.want {
            reply(replies, place.thread, Answer::Saw(value))?;
        }
    }
    Ok(())
}

/// All that these replies answer wait in the line no more.
fn leave_all(line: &mut Vec<Place>, answered: &[Reply])
    ensures { places line.new.items ≡ leave_line (threads_of answered.now) (places line.old.items) }
{
    for reply in answered {
        leave(line, reply.thread);
    }
}

/// All that wait to read are answered the value, and leave.
fn serve_readers(
    line: &mut Vec<Place>,
    value: u32,
    replies: &mut Vec<Reply>,
) -> Result<(), NoMemory>
    ensures line { OnOk result (places line.new.items ≡ leave_line (readers (places line.old.items)) (places line.old.items)) }
    ensures replies { OnOk result (answers replies.new.items ≡ answers replies.old.items ++ shown value (readers (places line.old.items))) }
{
    let before = replies.len();
    show(line.as_slice(), value, replies)?;
    let (_, answered) = replies.as_slice().split_at(before);
    leave_all(line, answered);
    Ok(())
}

/// The value goes to this thread, if any, which leaves; else it is answered as the content.
fn serve_taker(
    taker: Option<u32>,
    line: &mut Vec<Place>,
    value: u32,
    replies: &mut Vec<Reply>,
) -> Result<Option<u32>, NoMemory>
    ensures { IfOk result (λ content. (last : one.Reply ℕ) → after_of (cell_of content (places line.new.items)) (answers replies.new.items ++ last ∷ []) ≡ comes_on value taker (places line.old.items) (answers replies.old.items) last) }
{
    match taker {
        None => Ok(Some(value)),
        Some(taker) => {
            leave(line, taker);
            reply(replies, taker, Answer::Took(value))?;
            Ok(None)
        }
    }
}

/// The content was taken: the first that waits to put is served. Answers the new content.
pub fn move_in(line: &mut Vec<Place>, replies: &mut Vec<Reply>) -> Result<Option<u32>, NoMemory>
    ensures { IfOk result (λ content. after_of (cell_of content (places line.new.items)) (answers replies.new.items) ≡ moves_in (one.first_put (places line.old.items)) (places line.old.items) (answers replies.old.items)) }
{
    match first_put(line.as_slice()) {
        None => Ok(None),
        Some((thread, value)) => {
            leave(line, thread);
            reply(replies, thread, Answer::Gave)?;
            Ok(Some(value))
        }
    }
}

/// A value comes to an empty cell: all that wait to read are served, then the first that waits to take, and last this thread is
/// answered. Answers the new content.
pub fn come_in(
    line: &mut Vec<Place>,
    value: u32,
    thread: u32,
    answer: Answer,
    replies: &mut Vec<Reply>,
) -> Result<Option<u32>, NoMemory>
    ensures cell { IfOk result (λ content. cell_of content (places line.new.items) ≡ (comes_in value (places line.old.items) (reply_of thread (answer_of answer))).cell) }
    ensures replies { OnOk result (answers replies.new.items ≡ answers replies.old.items ++ (comes_in value (places line.old.items) (reply_of thread (answer_of answer))).replies) }
{
    let taker = first_take(line.as_slice());
    serve_readers(line, value, replies)?;
    let content = serve_taker(taker, line, value, replies)?;
    reply(replies, thread, answer)?;
    Ok(content)
}
