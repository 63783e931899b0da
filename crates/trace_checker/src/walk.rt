//! The way along the lines of a text, entry by entry, with a player beside it.
ghost use Rattle.std.specs.Prelude.{◌≤◌};

use crate::player::Player;
use crate::steps::cost;
use crate::verdict::{RunFault, Verified};
use hs_rules::{Code, Entry};
use std::alloc::Global;
use trace_text::{Line, Lines};

/// So many steps may a run have that is checked.
const MOST_STEPS: u32 = 4_000_000;

/// A text that was read as far as some entries, and what stands for the state that they leave.
///
/// `next` reads the line of an entry, and `play` goes on by it; in between the state can be looked at in `player`.
#[derive(Drop)]
pub struct Walk<'a> {
    pub lines: Lines<'a>,
    pub player: Player,
    /// How many entries were played.
    pub entries: u32,
    /// How many steps they have, at most 4,000,000.
    pub steps: u32,
    pub ghost few: { entries ≤ steps },
    pub ghost within: { steps ≤ 4000000 },
}

impl<'a> Walk<'a> {
    ghost use Rattle.std.specs.Prelude.{◌≡◌, ◌++◌, ◌∷◌, [], Err, IfErr, IfOk, List, MatchOption, Ok, OnOk, ℕ};
    ghost use Rattle.hs_rules.specs.declared.entry.Entry.{Entry as AnEntry};
    ghost use Rattle.rules_code.specs.Codes.{body_of};
    ghost use Rattle.rules_code.specs.declared.code.CodeBody.{CodeBody};
    ghost use Rattle.trace_text.specs.spelling.Traces.{Spells};
    ghost use Rattle.rules_expansion.specs.trees.Programs.{script_of};
    ghost use Rattle.trace_checker.specs.Checking.{Judges};
    ghost use Rattle.trace_checker.specs.Walking.{HasRead, WalkedTo};

    /// Behind the first line of the text. A text without that is misspelled at line 1.
    pub fn begin(alloc: Global, code: &Code, text: &'a [u8]) -> Result<Walk<'a>, RunFault>
        ensures ok { IfOk result (WalkedTo (body_of code.now) text.entry.now []) }
        ensures err { IfErr result (λ fault. Judges (script_of (body_of code.now).of.value) text.entry.now (Err fault)) }
    {
        let Some(lines) = Lines::of(text) else {
            return Err(RunFault::Spelling(1));
        };
        let player = Player::begin(alloc, code)?;
        Ok(Walk {
            lines,
            player,
            entries: 0,
            steps: 0,
        })
    }

    /// Reads the next line, and answers its entry, which is still to play. `None` exactly where the text ends there; the one
    /// error is that of a line that isn't as a trace has it.
    pub fn next(&mut self) -> Result<Option<Entry>, RunFault>
        ensures ok { (b : CodeBody) (text : List ℕ) (es : List AnEntry) → WalkedTo b text es self.old
            → IfOk result (λ read. MatchOption read (Spells text es × WalkedTo b text es self.new) (λ entry. HasRead b text es entry self.new)) }
        ensures err { (b : CodeBody) (text : List ℕ) (es : List AnEntry) → WalkedTo b text es self.old → IfErr result (λ fault. Judges (script_of b.of.value) text (Err fault)) }
        ensures of { self.new.player.of ≡ self.old.player.of }
    {
        match self.lines.next() {
            Line::Entry(entry) => Ok(Some(entry)),
            Line::End => Ok(None),
            Line::Spelling(_) => Err(RunFault::Spelling(self.entries + 2)),
        }
    }

    /// Goes on by the entry that was read. It has too many steps, or it isn't legal, or there is no memory to play it.
    pub fn play(&mut self, code: &Code, entry: Entry) -> Result<(), RunFault>
        requires { self.old.player.of.value ≡ body_of code.now }
        ensures ok { (b : CodeBody) (text : List ℕ) (es : List AnEntry) → HasRead b text es entry self.old → OnOk result (WalkedTo b text (es ++ entry ∷ []) self.new) }
        ensures err { (b : CodeBody) (text : List ℕ) (es : List AnEntry) → HasRead b text es entry self.old → IfErr result (λ fault. Judges (script_of b.of.value) text (Err fault)) }
        ensures of { self.new.player.of ≡ self.old.player.of }
    {
        let more = cost(entry);
        if more > MOST_STEPS - self.steps {
            return Err(RunFault::Long(self.entries + 2));
        }
        if !self.player.play(code, entry)? {
            return Err(RunFault::Illegal(self.entries + 2));
        }
        self.entries += 1;
        self.steps += more;
        Ok(())
    }

    /// What is said of the text where it ends here.
    pub fn verdict(&mut self) -> Verified
        ensures { (b : CodeBody) (text : List ℕ) (es : List AnEntry) → WalkedTo b text es self.old → Spells text es → Judges (script_of b.of.value) text (Ok result) }
    {
        let end = self.player.reached();
        Verified {
            entries: self.entries,
            steps: self.steps,
            end,
        }
    }
}
