//! What an entry prints.
ghost use Rattle.std.specs.Prelude.{◌≡◌, ◌++◌, [], cond, IfOk, true};
ghost use Rattle.rules_code.specs.declared.code.CodeBody.{CodeBody};
ghost use Rattle.hs_rules.specs.Primitives.{line_feed};
ghost use Rattle.slot_states.specs.Printing.{output_of, errors_of, line_by, output_by, errors_by};
ghost use Rattle.frame_stack.specs.Parts.{part_of};
ghost use Rattle.world_entries.specs.Worlds.{state_of};

use crate::history::acts::NextEntry;
use crate::history::record::Record;
use frame_stack::{Control, Prim};
use hs_base::NoMemory;
use std::alloc::{AllocError, Global};
use world_entries::lines::uncaught;

/// Where a piece goes.
#[derive(Clone, Copy, Debug, PartialEq, Eq)]
pub enum Stream {
    Output,
    Errors,
}

/// What an entry prints, as it is put.
#[derive(Drop)]
pub struct PrintedPiece {
    pub stream: Stream,
    pub bytes: Vec<u8>,
}

/// These bytes, with a line feed where it is asked for.
fn piece_of(alloc: Global, stream: Stream, text: &str, line: bool) -> Result<PrintedPiece, NoMemory>
    ensures stream { IfOk result (λ p. p.stream ≡ stream) }
    ensures bytes { IfOk result (λ p. p.bytes.items ≡ text.now ++ cond line line_feed []) }
{
    let mut bytes = Vec::new(alloc);
    bytes
        .extend_from_slice(text.as_bytes())
        .map_err(AllocError::from)?;
    if line {
        bytes.push(b'\n').map_err(AllocError::from)?;
    }
    Ok(PrintedPiece { stream, bytes })
}

impl Record {
    ghost use Rattle.run_course.specs.history.Acts.{entry_of};
    ghost use Rattle.run_course.specs.history.Pieces.{IsPiece};

    /// What an act prints, if anything.
    pub fn piece(&self, act: NextEntry) -> Result<Option<PrintedPiece>, NoMemory>
        ensures { IfOk result (λ piece. (b : CodeBody) → IsPiece piece (output_by (state_of b self.now.world) (entry_of act)) (errors_by (state_of b self.now.world) (entry_of act))) }
    {
        let alloc = self.world.alloc;
        match act {
            NextEntry::Op(t) => match self.world.threads.list.get(t as usize) {
                Some(thread) => Record::printed(alloc, thread.stack.control()),
                None => Ok(None),
            },
            NextEntry::Finish(t) => match self.world.threads.list.get(t as usize) {
                Some(thread) => Record::end_line(alloc, t, thread.stack.control()),
                None => Ok(None),
            },
            _ => Ok(None),
        }
    }

    /// What the operation of a control prints, if anything.
    fn printed(alloc: Global, control: &Control) -> Result<Option<PrintedPiece>, NoMemory>
        ensures { IfOk result (λ piece. (b : CodeBody) → IsPiece piece (output_of (part_of b control.now)) (errors_of (part_of b control.now))) }
    {
        match control {
            Control::Op(Prim::PutStr(text)) => Ok(Some(piece_of(
                alloc,
                Stream::Output,
                text.as_str(),
                false,
            )?)),
            Control::Op(Prim::PutStrLn(text)) => Ok(Some(piece_of(
                alloc,
                Stream::Output,
                text.as_str(),
                true,
            )?)),
            Control::Op(Prim::HPutStrLn(text)) => Ok(Some(piece_of(
                alloc,
                Stream::Errors,
                text.as_str(),
                true,
            )?)),
            _ => Ok(None),
        }
    }

    /// What the end of a thread by a control prints, if anything.
    fn end_line(alloc: Global, t: u32, control: &Control) -> Result<Option<PrintedPiece>, NoMemory>
        ensures { IfOk result (λ piece. (b : CodeBody) → IsPiece piece [] (line_by t (part_of b control.now))) }
    {
        match control {
            Control::Throw(e) => {
                let bytes = uncaught(alloc, t, e)?;
                Ok(Some(PrintedPiece {
                    stream: Stream::Errors,
                    bytes,
                }))
            }
            _ => Ok(None),
        }
    }
}
