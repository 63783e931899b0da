ghost use Rattle.std.specs.Prelude.{◌≡◌, ◌++◌, IfOk, OnOk};
ghost use Rattle.rules_waiting.specs.OneCell.{made, call, Take, Read, Put, Try_take, Try_put, Leave};
ghost use Rattle.number_states.specs.waits.Places.{answers};

use crate::waits::lines::{come_in, join, leave, move_in, reply};
use crate::waits::places::{Answer, Place, Reply, Want};
use hs_base::NoMemory;
use std::alloc::Global;
use std::marker::Model;

/// A cell (`MVar`) whose values are numbers, with its line.
pub struct NumberCell {
    pub(crate) content: Option<u32>,
    /// The longest waiting first.
    pub(crate) line: Vec<Place>,
}

// Written out, so that it is proved once, here, and not in each function above that lets one go.
impl Drop for NumberCell {
    fn drop(self) {
        let NumberCell {
            content: _,
            line: _,
        } = self;
    }
}

impl Model for NumberCell {
    ghost use Rattle.std.specs.Prelude.{ℕ};
    ghost use Rattle.rules_waiting.specs.OneCell.{Cell, cell_of};

    ghost Value = { Cell ℕ };

    ghost use Rattle.number_states.specs.waits.Places.{places};

    ghost view = { λ c. cell_of c.content (places c.line.items) };
}

/// Each call puts whom it answers at the end of the replies. Where memory runs out nothing is said of the cell and of the
/// replies: the caller lets both go.
impl NumberCell {
    /// A new cell with this content and an empty line.
    pub fn made(alloc: Global, content: Option<u32>) -> NumberCell
        ensures { result ≡ made content }
    {
        NumberCell {
            content,
            line: Vec::new(alloc),
        }
    }

    /// `takeMVar`.
    pub fn take(&mut self, thread: u32, replies: &mut Vec<Reply>) -> Result<(), NoMemory>
        ensures cell { OnOk result (self.new ≡ (call (Take thread) self.old).cell) }
        ensures replies { OnOk result (answers replies.new.items ≡ answers replies.old.items ++ (call (Take thread) self.old).replies) }
    {
        match self.content {
            None => join(&mut self.line, thread, Want::Take),
            Some(value) => {
                reply(replies, thread, Answer::Took(value))?;
                self.content = move_in(&mut self.line, replies)?;
                Ok(())
            }
        }
    }

    /// `readMVar`.
    pub fn read(&mut self, thread: u32, replies: &mut Vec<Reply>) -> Result<(), NoMemory>
        ensures cell { OnOk result (self.new ≡ (call (Read thread) self.old).cell) }
        ensures replies { OnOk result (answers replies.new.items ≡ answers replies.old.items ++ (call (Read thread) self.old).replies) }
    {
        match self.content {
            None => join(&mut self.line, thread, Want::Read),
            Some(value) => reply(replies, thread, Answer::Saw(value)),
        }
    }

    /// `putMVar`.
    pub fn put(&mut self, thread: u32, value: u32, replies: &mut Vec<Reply>) -> Result<(), NoMemory>
        ensures cell { OnOk result (self.new ≡ (call (Put thread value) self.old).cell) }
        ensures replies { OnOk result (answers replies.new.items ≡ answers replies.old.items ++ (call (Put thread value) self.old).replies) }
    {
        match self.content {
            Some(_) => join(&mut self.line, thread, Want::Put(value)),
            None => {
                self.content = come_in(&mut self.line, value, thread, Answer::Gave, replies)?;
                Ok(())
            }
        }
    }

    /// `tryTakeMVar`.
    pub fn try_take(&mut self, thread: u32, replies: &mut Vec<Reply>) -> Result<(), NoMemory>
        ensures cell { OnOk result (self.new ≡ (call (Try_take thread) self.old).cell) }
        ensures replies { OnOk result (answers replies.new.items ≡ answers replies.old.items ++ (call (Try_take thread) self.old).replies) }
    {
        match self.content {
            None => reply(replies, thread, Answer::TriedTake(None)),
            Some(value) => {
                reply(replies, thread, Answer::TriedTake(Some(value)))?;
                self.content = move_in(&mut self.line, replies)?;
                Ok(())
            }
        }
    }

    /// `tryPutMVar`.
    pub fn try_put(
        &mut self,
        thread: u32,
        value: u32,
        replies: &mut Vec<Reply>,
    ) -> Result<(), NoMemory>
        ensures cell { OnOk result (self.new ≡ (call (Try_put thread value) self.old).cell) }
        ensures replies { OnOk result (answers replies.new.items ≡ answers replies.old.items ++ (call (Try_put thread value) self.old).replies) }
    {
        match self.content {
            Some(_) => reply(replies, thread, Answer::TriedPut(false)),
            None => {
                let answer = Answer::TriedPut(true);
                self.content = come_in(&mut self.line, value, thread, answer, replies)?;
                Ok(())
            }
        }
    }

    /// The thread waits here no more. Nobody is answered.
    pub fn leave(&mut self, thread: u32)
        ensures { self.new ≡ (call (Leave thread) self.old).cell }
    {
        leave(&mut self.line, thread);
    }

    /// An equal cell.
    pub fn copy(&self, alloc: Global) -> Result<NumberCell, NoMemory>
        ensures { IfOk result (λ c. c ≡ self.now) }
    {
        let line = Vec::from_slice(alloc, self.line.as_slice())?;
        Ok(NumberCell {
            content: self.content,
            line,
        })
    }
}

/// Equal cells.
pub fn copy_cells(alloc: Global, cells: &[NumberCell]) -> Result<Vec<NumberCell>, NoMemory>
    ensures { IfOk result (λ copies. copies.items ≡ cells.now) }
{
    let mut copies = Vec::new(alloc);
    for cell in cells {
        let copy = cell.copy(alloc)?;
        copies.reserve(1)?;
        copies.push_reserved(copy);
    }
    Ok(copies)
}
