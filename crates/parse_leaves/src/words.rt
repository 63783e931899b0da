ghost use Rattle.std.specs.Prelude.{◌≡◌, ◌<◌, length, OnOk};
ghost use Rattle.rules_grammar.specs.Grammar as g;
ghost use Rattle.rules_grammar.specs.GrammarForms.{one_of};
ghost use Rattle.hs_grammar.specs.Parser as parser;
ghost use Rattle.parse_leaves.specs.Reads.{Reads};
ghost use Rattle.parse_leaves.specs.Tables.{Decides};

use crate::cursor::Cursor;
use crate::halt::Halt;
use hs_base::tree::forms::{
    BareAction, BinaryAction, BlockAction, GuardAction, MaskingAction, SideForm, UnaryAction,
    UnaryForm,
};
use hs_base::{Constant, Pos};
use rules_tokens::word;

/// The words of one shape, with what each stands for; the last of them is held by itself.
const CONSTANTS: [(u8, Constant); 5] = [
    (word::TRUE, Constant::True),
    (word::FALSE, Constant::False),
    (word::THREAD_KILLED, Constant::ThreadKilled),
    (word::USER_INTERRUPT, Constant::UserInterrupt),
    (word::DIVIDE_BY_ZERO, Constant::DivideByZero),
];

const LAST_CONSTANT: (u8, Constant) = (word::OVERFLOW, Constant::Overflow);

const UNARY: [(u8, UnaryForm); 5] = [
    (word::JUST, UnaryForm::Just),
    (word::ERROR_CALL, UnaryForm::ErrorCall),
    (word::NOT, UnaryForm::Not),
    (word::FST, UnaryForm::Fst),
    (word::SND, UnaryForm::Snd),
];

const LAST_UNARY: (u8, UnaryForm) = (word::SHOW, UnaryForm::Show);

const SIDES: [(u8, SideForm); 1] = [(word::LEFT, SideForm::Left)];

const LAST_SIDE: (u8, SideForm) = (word::RIGHT, SideForm::Right);

const BARE_ACTIONS: [(u8, BareAction); 2] = [
    (word::MY_THREAD_ID, BareAction::MyThreadId),
    (word::CLOCK_MICROS, BareAction::ClockMicros),
];

const LAST_BARE_ACTION: (u8, BareAction) = (word::GET_MASKING_STATE, BareAction::GetMaskingState);

const UNARY_ACTIONS: [(u8, UnaryAction); 10] = [
    (word::RETURN, UnaryAction::Return),
    (word::PUT_STR, UnaryAction::PutStr),
    (word::PUT_STR_LN, UnaryAction::PutStrLn),
    (word::NEW_MVAR, UnaryAction::NewMVar),
    (word::TAKE_MVAR, UnaryAction::TakeMVar),
    (word::READ_MVAR, UnaryAction::ReadMVar),
    (word::TRY_TAKE_MVAR, UnaryAction::TryTakeMVar),
    (word::KILL_THREAD, UnaryAction::KillThread),
    (word::THREAD_DELAY, UnaryAction::ThreadDelay),
    (word::WAIT, UnaryAction::Wait),
];

const LAST_UNARY_ACTION: (u8, UnaryAction) = (word::CANCEL, UnaryAction::Cancel);

const BINARY_ACTIONS: [(u8, BinaryAction); 2] = [
    (word::PUT_MVAR, BinaryAction::PutMVar),
    (word::TRY_PUT_MVAR, BinaryAction::TryPutMVar),
];

const LAST_BINARY_ACTION: (u8, BinaryAction) = (word::THROW_TO, BinaryAction::ThrowTo);

const SCOPED_ACTIONS: [(u8, BlockAction); 2] = [
    (word::FORK_IO, BlockAction::ForkIo),
    (word::MASK_BLOCK, BlockAction::MaskOnly),
];

const LAST_SCOPED_ACTION: (u8, BlockAction) = (
    word::UNINTERRUPTIBLE_MASK_BLOCK,
    BlockAction::UninterruptibleMaskOnly,
);

const MASKING_ACTIONS: [(u8, MaskingAction); 2] = [
    (word::FORK_IO_WITH_UNMASK, MaskingAction::ForkIoWithUnmask),
    (word::MASK, MaskingAction::Mask),
];

const LAST_MASKING_ACTION: (u8, MaskingAction) = (
    word::UNINTERRUPTIBLE_MASK,
    MaskingAction::UninterruptibleMask,
);

const GUARD_ACTIONS: [(u8, GuardAction); 3] = [
    (word::ON_EXCEPTION, GuardAction::OnException),
    (word::FINALLY, GuardAction::Finally),
    (word::RACE, GuardAction::Race),
];

const LAST_GUARD_ACTION: (u8, GuardAction) = (word::CONCURRENTLY, GuardAction::Concurrently);

impl<'a> Cursor<'a> {
    /// The row of the next token, or the last one.
    fn row_at<W: Copy>(&self, rows: &[(u8, W)], last: (u8, W)) -> (u8, W)
        ensures { Decides rows.now last self.now result }
    {
        'rows: for row in rows {
            if self.at_word(row.0) {
                return *row;
            }
        }
        last
    }

    /// Whether the next token is one of these words.
    fn at_one_of<W: Copy>(&self, rows: &[(u8, W)], last: (u8, W)) -> bool
        ensures { result ≡ parser.begins (parser.firsts (one_of rows.now last)) self.now }
    {
        let row = self.row_at(rows, last);
        self.at_word(row.0)
    }

    /// One of these words, as what it stands for, and its position.
    fn one_of<W: Copy>(
        &mut self,
        rows: &[(u8, W)],
        last: (u8, W),
        depth: u32,
    ) -> Result<(W, Pos), Halt>
        ensures reads { Reads (parser.read (parser.enter depth) (one_of rows.now last) self.old) result self.new }
        ensures shorter { OnOk result (length self.new < length self.old) }
    {
        let row = self.row_at(rows, last);
        let pos = self.word(row.0)?;
        Ok((row.1, pos))
    }

    /// Whether the next token begins one.
    pub fn at_constant(&self) -> bool
        ensures { result ≡ parser.begins (parser.firsts g.constant_word) self.now }
    {
        self.at_one_of(&CONSTANTS, LAST_CONSTANT)
    }

    pub fn constant_word(&mut self, depth: u32) -> Result<(Constant, Pos), Halt>
        ensures reads { Reads (parser.read (parser.enter depth) g.constant_word self.old) result self.new }
        ensures shorter { OnOk result (length self.new < length self.old) }
    {
        self.one_of(&CONSTANTS, LAST_CONSTANT, depth)
    }

    /// Whether the next token begins one.
    pub fn at_unary_expr(&self) -> bool
        ensures { result ≡ parser.begins (parser.firsts g.unary_expr) self.now }
    {
        self.at_one_of(&UNARY, LAST_UNARY)
    }

    pub fn unary_word(&mut self, depth: u32) -> Result<(UnaryForm, Pos), Halt>
        ensures reads { Reads (parser.read (parser.enter depth) g.unary_word self.old) result self.new }
        ensures shorter { OnOk result (length self.new < length self.old) }
    {
        self.one_of(&UNARY, LAST_UNARY, depth)
    }

    /// Whether the next token begins one.
    pub fn at_side_expr(&self) -> bool
        ensures { result ≡ parser.begins (parser.firsts g.side_expr) self.now }
    {
        self.at_one_of(&SIDES, LAST_SIDE)
    }

    pub fn side_word(&mut self, depth: u32) -> Result<(SideForm, Pos), Halt>
        ensures reads { Reads (parser.read (parser.enter depth) g.side_word self.old) result self.new }
        ensures shorter { OnOk result (length self.new < length self.old) }
    {
        self.one_of(&SIDES, LAST_SIDE, depth)
    }

    /// Whether the next token begins one.
    pub fn at_bare_action(&self) -> bool
        ensures { result ≡ parser.begins (parser.firsts g.bare_action) self.now }
    {
        self.at_one_of(&BARE_ACTIONS, LAST_BARE_ACTION)
    }

    pub fn bare_action_word(&mut self, depth: u32) -> Result<(BareAction, Pos), Halt>
        ensures reads { Reads (parser.read (parser.enter depth) g.bare_action_word self.old) result self.new }
        ensures shorter { OnOk result (length self.new < length self.old) }
    {
        self.one_of(&BARE_ACTIONS, LAST_BARE_ACTION, depth)
    }

    /// Whether the next token begins one.
    pub fn at_unary_action(&self) -> bool
        ensures { result ≡ parser.begins (parser.firsts g.unary_action) self.now }
    {
        self.at_one_of(&UNARY_ACTIONS, LAST_UNARY_ACTION)
    }

    pub fn unary_action_word(&mut self, depth: u32) -> Result<(UnaryAction, Pos), Halt>
        ensures reads { Reads (parser.read (parser.enter depth) g.unary_action_word self.old) result self.new }
        ensures shorter { OnOk result (length self.new < length self.old) }
    {
        self.one_of(&UNARY_ACTIONS, LAST_UNARY_ACTION, depth)
    }

    /// Whether the next token begins one.
    pub fn at_binary_action(&self) -> bool
        ensures { result ≡ parser.begins (parser.firsts g.binary_action) self.now }
    {
        self.at_one_of(&BINARY_ACTIONS, LAST_BINARY_ACTION)
    }

    pub fn binary_action_word(&mut self, depth: u32) -> Result<(BinaryAction, Pos), Halt>
        ensures reads { Reads (parser.read (parser.enter depth) g.binary_action_word self.old) result self.new }
        ensures shorter { OnOk result (length self.new < length self.old) }
    {
        self.one_of(&BINARY_ACTIONS, LAST_BINARY_ACTION, depth)
    }

    /// Whether the next token begins one.
    pub fn at_scoped_action(&self) -> bool
        ensures { result ≡ parser.begins (parser.firsts g.scoped_action) self.now }
    {
        self.at_one_of(&SCOPED_ACTIONS, LAST_SCOPED_ACTION)
    }

    pub fn scoped_action_word(&mut self, depth: u32) -> Result<(BlockAction, Pos), Halt>
        ensures reads { Reads (parser.read (parser.enter depth) g.scoped_action_word self.old) result self.new }
        ensures shorter { OnOk result (length self.new < length self.old) }
    {
        self.one_of(&SCOPED_ACTIONS, LAST_SCOPED_ACTION, depth)
    }

    /// Whether the next token begins one.
    pub fn at_masking_action(&self) -> bool
        ensures { result ≡ parser.begins (parser.firsts g.masking_action) self.now }
    {
        self.at_one_of(&MASKING_ACTIONS, LAST_MASKING_ACTION)
    }

    pub fn masking_action_word(&mut self, depth: u32) -> Result<(MaskingAction, Pos), Halt>
        ensures reads { Reads (parser.read (parser.enter depth) g.masking_action_word self.old) result self.new }
        ensures shorter { OnOk result (length self.new < length self.old) }
    {
        self.one_of(&MASKING_ACTIONS, LAST_MASKING_ACTION, depth)
    }

    /// Whether the next token begins one.
    pub fn at_guard_action(&self) -> bool
        ensures { result ≡ parser.begins (parser.firsts g.guard_action) self.now }
    {
        self.at_one_of(&GUARD_ACTIONS, LAST_GUARD_ACTION)
    }

    pub fn guard_action_word(&mut self, depth: u32) -> Result<(GuardAction, Pos), Halt>
        ensures reads { Reads (parser.read (parser.enter depth) g.guard_action_word self.old) result self.new }
        ensures shorter { OnOk result (length self.new < length self.old) }
    {
        self.one_of(&GUARD_ACTIONS, LAST_GUARD_ACTION, depth)
    }
}
