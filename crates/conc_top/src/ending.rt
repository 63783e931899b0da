ghost use Rattle.std.specs.Prelude.{◌≡◌, IfOk, OnErr, string_bytes};
ghost use Rattle.conc_top.specs.Lines.{absent_line, extent_status, HasPlace, judged_status, line_of, norun_line, numbered_line, NumbersALine, placed_line, PlacesTypeFault, reached_word, refusal_line, RefusesAPlace, run_line, run_status, status_of, text_of, types_line, undrawn_line, verified_line};

use claim_lines::Judged;
use conc_caps::{Parts, RunEnd, Shows};
use hs_base::{NoMemory, Pos};
use hs_compile::Refusal;
use hs_io::{Clock, Sink};
use hs_lex::LexFault;
use hs_parse::ParseFault;
use hs_rules::{History, LimitKind};
use hs_types::TypeFault;
use outcome_listing::Extent;
use std::alloc::Global;
use trace_report::{Reached, Verified};

/// What `check` puts on the output sink where the script is accepted.
pub const ACCEPTED: &str = "accepted\n";

/// The line of the ending `Memory`.
pub const OUT_OF_MEMORY: &str = "out of memory\n";

/// How a call of `run` ended.
#[derive(Debug, Drop)]
pub enum Ending {
    /// A script ran.
    Ran(RunEnd),
    /// A script was checked alone, and is accepted.
    Accepted,
    /// The words are no command (`conc_task::words`).
    Words,
    /// The script is refused.
    Refused(Refusal),
    /// A read of the source failed.
    Read,
    /// Want of memory.
    Memory,
    /// A put failed.
    Write,
    /// A document is a run of its script.
    Verified(Verified),
    /// A document is one, and its report was written.
    Reported,
    /// A document is one, and it was drawn.
    Pictured,
    /// A document is none.
    NotRun(NotRun),
    /// A document is a run with so many entries, and these are too many for a picture.
    NotDrawn(u32),
    /// The outcomes of a script were listed, or a run that comes to one of them was written.
    Outcomes(Extent),
    /// There is no outcome of this number.
    NoOutcome(u32),
    /// The claims of a script were judged.
    Claims(Judged),
    /// A line of a script begins as a claim and is none, first at this place.
    ClaimRefused(Pos),
    /// A script has no claim.
    NoClaim,
    /// A script was printed as a Haskell module.
    Printed,
}

impl From<NoMemory> for Ending {
    ghost use Rattle.std.specs.Prelude.{◌≡◌};
    ghost use Rattle.conc_top.specs.declared.ending.Ending.TheVariants as ending;

    ghost from_gives = { λ _ e. e ≡ ending.Memory };

    fn from(_: NoMemory) -> Ending {
        Ending::Memory
    }
}

/// Why a document is no run of its script.
#[derive(Clone, Copy, Debug, PartialEq, Eq)]
pub enum NotRun {
    /// No line of it is `script`.
    NoScript,
    /// The line with this number isn't as a trace has it.
    Spelling(u32),
    /// With the line of this number there are more steps than a run may have.
    Long(u32),
    /// The entry of the line with this number isn't legal after those before it.
    Illegal(u32),
}

/// What a call of `run` leaves: its ending with its status, the history, and what was handed in.
#[derive(Debug, Drop)]
pub struct Done<O, E, K> {
    pub status: u8,
    pub ending: Ending,
    pub history: History,
    pub out: O,
    pub err: E,
    pub clock: K,
}

impl<O: Sink, E: Sink, K: Clock> Shows for Done<O, E, K> {
    ghost shown = { λ d. ⟦<Parts<O, E, K> as Shows>⟧.shown (record { out = d.out; err = d.err; clock = d.clock }) };
}

impl Ending {
    /// The status with which the program ends.
    pub fn status(&self) -> u8
        ensures { result ≡ status_of self.now }
    {
        match self {
            Ending::Ran(end) => run_status(end),
            Ending::Accepted
            | Ending::Verified(_)
            | Ending::Reported
            | Ending::Pictured
            | Ending::Printed => 0,
            Ending::Words => 2,
            Ending::Refused(_) | Ending::ClaimRefused(_) => 3,
            Ending::Memory => 6,
            Ending::Read => 7,
            Ending::Write => 8,
            Ending::NotRun(_) => 10,
            Ending::NotDrawn(_) => 13,
            Ending::Outcomes(extent) => extent_status(extent),
            Ending::NoOutcome(_) | Ending::NoClaim => 12,
            Ending::Claims(judged) => judged_status(*judged),
        }
    }

    /// The line that goes to the error sink, with its line feed, or an empty text. Only a line with a place or a
    /// number in it takes memory.
    pub fn line(&self, alloc: Global) -> Result<Line, NoMemory>
        ensures line { IfOk result (λ line. text_of line ≡ line_of self.now) }
        ensures err { OnErr result (HasPlace self.now) }
    {
        match self {
            Ending::Ran(end) => Ok(Line::Fixed(run_line(end))),
            Ending::Accepted
            | Ending::Verified(_)
            | Ending::Reported
            | Ending::Pictured
            | Ending::Outcomes(_)
            | Ending::Claims(_)
            | Ending::Printed
            | Ending::Write => Ok(Line::Fixed("")),
            Ending::Words => Ok(Line::Fixed("words not understood\n")),
            Ending::Refused(refusal) => refusal_line(alloc, refusal),
            Ending::Memory => Ok(Line::Fixed(OUT_OF_MEMORY)),
            Ending::Read => Ok(Line::Fixed("read fault\n")),
            Ending::NotRun(why) => norun_line(alloc, why),
            Ending::NotDrawn(entries) => undrawn_line(alloc, *entries),
            Ending::NoOutcome(number) => absent_line(alloc, *number),
            Ending::ClaimRefused(at) => line_at(alloc, "Claim", *at),
            Ending::NoClaim => Ok(Line::Fixed("no claim\n")),
        }
    }
}

/// A line as it is told.
#[derive(Debug, Drop)]
pub enum Line {
    Fixed(&'static str),
    Made(String),
}

impl Line {
    pub fn as_str(&self) -> &str
        ensures { result.now ≡ text_of self.now }
    {
        match self {
            Line::Fixed(text) => text,
            Line::Made(text) => text.as_str(),
        }
    }
}

fn run_status(end: &RunEnd) -> u8
    ensures { result ≡ run_status end.now }
{
    match end {
        RunEnd::Done => 0,
        RunEnd::Uncaught => 1,
        RunEnd::Deadlock => 4,
        RunEnd::Fuel => 5,
        RunEnd::Memory => 6,
        RunEnd::Write => 8,
        RunEnd::Limit(..) => 9,
    }
}

fn extent_status(extent: &Extent) -> u8
    ensures { result ≡ extent_status extent.now }
{
    match extent {
        Extent::All => 0,
        Extent::NotAll(..) => 11,
    }
}

fn judged_status(judged: Judged) -> u8
    ensures { result ≡ judged_status judged }
{
    match judged {
        Judged::Hold => 0,
        Judged::Fail => 14,
        Judged::Open => 11,
    }
}

/// The line of a run's ending, with its line feed, or an empty text.
pub fn run_line(end: &RunEnd) -> &'static str
    ensures { result.now ≡ run_line end.now }
{
    match end {
        RunEnd::Done | RunEnd::Uncaught | RunEnd::Write => "",
        RunEnd::Deadlock => "deadlock\n",
        RunEnd::Fuel => "out of fuel\n",
        RunEnd::Memory => "out of memory\n",
        RunEnd::Limit(LimitKind::Threads, _) => "limit: threads\n",
        RunEnd::Limit(LimitKind::Cells, _) => "limit: cells\n",
        RunEnd::Limit(LimitKind::Frames, _) => "limit: frames\n",
        RunEnd::Limit(LimitKind::Output, _) => "limit: output\n",
    }
}

/// The line that goes to the output sink where `verify` finds a run.
pub fn verified_line(alloc: Global, verified: &Verified) -> Result<String, NoMemory>
    ensures { IfOk result (λ line. string_bytes line ≡ verified_line verified.now) }
{
    let word = reached_word(verified.end);
    let line = format!(in alloc;
        "a run: {} entries, {} steps, {}\n",
        verified.entries, verified.steps, word
    )?;
    Ok(line)
}

fn reached_word(end: Reached) -> &'static str
    ensures { result.now ≡ reached_word end }
{
    match end {
        Reached::Done => "done",
        Reached::Uncaught => "uncaught",
        Reached::Deadlock => "deadlock",
        Reached::Open => "open",
    }
}

fn norun_line(alloc: Global, why: &NotRun) -> Result<Line, NoMemory>
    ensures line { IfOk result (λ line. text_of line ≡ norun_line why.now) }
    ensures err { OnErr result (NumbersALine why.now) }
{
    match why {
        NotRun::NoScript => Ok(Line::Fixed("not a run: NoScript\n")),
        NotRun::Spelling(number) => line_numbered(alloc, "not a run: Spelling at line ", *number),
        NotRun::Long(number) => line_numbered(alloc, "not a run: Long at line ", *number),
        NotRun::Illegal(number) => line_numbered(alloc, "not a run: Illegal at line ", *number),
    }
}

fn undrawn_line(alloc: Global, entries: u32) -> Result<Line, NoMemory>
    ensures { IfOk result (λ line. text_of line ≡ undrawn_line entries) }
{
    let line = format!(in alloc; "not drawn: {} entries, at most 10000\n", entries)?;
    Ok(Line::Made(line))
}

fn absent_line(alloc: Global, number: u32) -> Result<Line, NoMemory>
    ensures { IfOk result (λ line. text_of line ≡ absent_line number) }
{
    let line = format!(in alloc; "no outcome {}\n", number)?;
    Ok(Line::Made(line))
}

// not a run: KIND at line N
fn line_numbered(alloc: Global, kind: &str, number: u32) -> Result<Line, NoMemory>
    ensures { IfOk result (λ line. text_of line ≡ numbered_line kind.now number) }
{
    let line = format!(in alloc; "{}{}\n", kind, number)?;
    Ok(Line::Made(line))
}

fn refusal_line(alloc: Global, refusal: &Refusal) -> Result<Line, NoMemory>
    ensures line { IfOk result (λ line. text_of line ≡ refusal_line refusal.now) }
    ensures err { OnErr result (RefusesAPlace refusal.now) }
{
    match refusal {
        Refusal::TooLong => Ok(Line::Fixed("refused: TooLong\n")),
        Refusal::Lex(LexFault::NotUtf8(at)) => line_at(alloc, "NotUtf8", *at),
        Refusal::Lex(LexFault::BadChar(at)) => line_at(alloc, "BadChar", *at),
        Refusal::Lex(LexFault::OpenText(at)) => line_at(alloc, "OpenText", *at),
        Refusal::Lex(LexFault::BigNumber(at)) => line_at(alloc, "BigNumber", *at),
        Refusal::Lex(LexFault::NoMemory) => Ok(Line::Fixed(OUT_OF_MEMORY)),
        Refusal::Parse(ParseFault::Unexpected(at)) => line_at(alloc, "Unexpected", *at),
        Refusal::Parse(ParseFault::Deep(at)) => line_at(alloc, "Deep", *at),
        Refusal::Parse(ParseFault::NoMemory) => Ok(Line::Fixed(OUT_OF_MEMORY)),
        Refusal::Types(fault) => types_line(alloc, fault),
    }
}

fn types_line(alloc: Global, fault: &TypeFault) -> Result<Line, NoMemory>
    ensures line { IfOk result (λ line. text_of line ≡ types_line fault.now) }
    ensures err { OnErr result (PlacesTypeFault fault.now) }
{
    match fault {
        TypeFault::Twice(at) => line_at(alloc, "Twice", *at),
        TypeFault::Unknown(at) => line_at(alloc, "Unknown", *at),
        TypeFault::Kind(at) => line_at(alloc, "Kind", *at),
        TypeFault::Forward(at) => line_at(alloc, "Forward", *at),
        TypeFault::Arity { pos, .. } => line_at(alloc, "Arity", *pos),
        TypeFault::Mismatch { pos, .. } => line_at(alloc, "Mismatch", *pos),
        TypeFault::Scope(at) => line_at(alloc, "Scope", *at),
        TypeFault::Wide(at) => line_at(alloc, "Wide", *at),
        TypeFault::Large(at) => line_at(alloc, "Large", *at),
        TypeFault::NoMain => Ok(Line::Fixed("refused: NoMain at 1:1\n")),
        TypeFault::NoMemory => Ok(Line::Fixed(OUT_OF_MEMORY)),
    }
}

// refused: KIND at L:C
fn line_at(alloc: Global, kind: &str, at: Pos) -> Result<Line, NoMemory>
    ensures { IfOk result (λ line. text_of line ≡ placed_line kind.now at) }
{
    let line = format!(in alloc; "refused: {} at {}:{}\n", kind, at.line, at.col)?;
    Ok(Line::Made(line))
}
