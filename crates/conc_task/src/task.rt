ghost use Rattle.std.specs.Prelude.{◌≡◌, ◌≤◌, IfOk, MatchResult, Some};
ghost use Rattle.hs_io.specs.Causes.{Rose};
ghost use Rattle.rules_code.specs.Codes.{body_of};
ghost use Rattle.hs_compile.specs.Verdicts.{IsAccepted};
ghost use Rattle.conc_task.specs.ring.Ring.{ring_text};
ghost use Rattle.conc_task.specs.declared.words.command.Command.TheVariants.{Ask};
ghost use Rattle.conc_task.specs.declared.words.command.Question.{Question as AQuestion};
ghost use Rattle.conc_task.specs.words.Commands.{command_by, IsWithin};
ghost use Rattle.conc_task.specs.Commands.{ReadsSource};
ghost use Rattle.conc_task.specs.Inputs.{HadBytes, HadScript, TakesWhole};
ghost use Rattle.conc_task.specs.Stops.{Counted, HadNone, HasNone, IsDenied, IsNoReplay, IsUnclear, IsUnread, stop_of};
ghost use Rattle.conc_task.specs.Tasks.{HadSearch, HasCapabilities, HasFuel, HasNumber, HasReplay, HasStates, HasTask, IsReplay};

use crate::input::{Input, read_input};
use crate::ring::ring;
use crate::stop::Stop;
use crate::words::{Command, Question, WordsFault, read_words};
use hs_base::ClockChoice;
use hs_base::tree::Script;
use hs_compile::{CompileFault, Refusal, accept, compile};
use hs_io::Source;
use rules_code::Code;
use std::alloc::Global;
use trace_text::split;

/// The most bytes of a script.
const SCRIPT_LIMIT: u32 = 1_048_576;

/// The most bytes of a document.
const DOCUMENT_LIMIT: u32 = 100_663_296;

/// A script to run, and what it runs with.
#[derive(Drop)]
pub struct Program {
    pub code: Code,
    /// How many threads may evaluate at a time, 1 to 16.
    pub capabilities: u8,
    /// How many steps the run may take, 1 to 4,000,000.
    pub fuel: u32,
    pub clock: ClockChoice,
}

/// A document that may be a run: its trace, and the code of its script.
#[derive(Drop)]
pub struct Replay {
    pub code: Code,
    /// The bytes before the line `script`.
    pub trace: Vec<u8>,
}

/// A script whose outcomes are to be searched, and how far.
#[derive(Drop)]
pub struct Search {
    pub code: Code,
    /// The bytes that it was made of.
    pub script: Vec<u8>,
    pub clock: ClockChoice,
    /// The most states that are kept, 1 to 4,000,000.
    pub states: u32,
    /// The most steps of a run, 1 to 4,000,000.
    pub fuel: u32,
}

/// What is to be shown without a run.
#[derive(Drop)]
pub enum Asked {
    /// The outcomes of a script, or a run that comes to the one of this number, from 1.
    Outcomes(Search, Option<u32>),
    /// Which of its claims hold.
    Claims(Search),
    /// A script, as a Haskell module.
    Module(Script),
    /// The answer to a question about a trace and the script beside it.
    Document(Question, Replay),
}

/// What is left to do once the words and the input are read.
#[derive(Drop)]
pub enum Task {
    /// To run a script.
    Run(Program),
    /// To say that the script is accepted.
    Accept,
    /// To run a script and to write its history, and then the script, as it was read.
    Trace(Program, Vec<u8>),
    /// To show something, without a run.
    Show(Asked),
}

/// What the words after the program's name ask for.
///
/// `run`, `check`, `trace`, `outcomes`, `claims` and `haskell` read the source to its end, or to the first byte that no script has,
/// what asks something of a document to the first that no document has; no other words read it. Want of memory is free.
pub fn task_of<S: Source>(alloc: Global, words: &[String], source: &mut S) -> Result<Task, Stop>
    ensures comes { MatchResult result
        (HasTask (command_by words.now) (S.left source.old) (S.left source.new))
        (HasNone (command_by words.now) (Rose (S.faults source.old) (S.faults source.new)) (S.left source.old) (S.left source.new)) }

    // There is fuel for what is run, and not too much; and so with its capabilities, and with the states of a search.
    ensures fuel { IfOk result HasFuel }
    ensures states { IfOk result HasStates }
    ensures number { IfOk result HasNumber }
    ensures capabilities { IfOk result HasCapabilities }

    // A failed read is told, and nothing else raises the source's count of faults.
    ensures counts { MatchResult result (λ task. S.faults source.new ≡ S.faults source.old) (λ stop. Counted stop (S.faults source.old) (S.faults source.new)) }
    ensures unread { ¬ ReadsSource (command_by words.now) → source.new ≡ source.old }
{
    match understood(alloc, words)? {
        Command::Run {
            capabilities,
            fuel,
            clock,
        } => {
            let code = read_code(alloc, source)?;
            Ok(Task::Run(Program {
                code,
                capabilities,
                fuel,
                clock,
            }))
        }
        Command::Check => {
            read_checked(alloc, source)?;
            Ok(Task::Accept)
        }
        Command::Bench {
            threads,
            capabilities,
            fuel,
        } => {
            let code = ring_code(alloc, threads)?;
            let clock = ClockChoice::Virtual;
            Ok(Task::Run(Program {
                code,
                capabilities,
                fuel,
                clock,
            }))
        }
        Command::Trace {
            capabilities,
            fuel,
            clock,
        } => {
            let (code, bytes) = read_traced(alloc, source)?;
            let program = Program {
                code,
                capabilities,
                fuel,
                clock,
            };
            Ok(Task::Trace(program, bytes))
        }
        Command::Outcomes {
            clock,
            states,
            fuel,
            witness,
        } => {
            let sought = read_search(alloc, source, clock, states, fuel)?;
            Ok(Task::Show(Asked::Outcomes(sought, witness)))
        }
        Command::Claims {
            clock,
            states,
            fuel,
        } => {
            let sought = read_search(alloc, source, clock, states, fuel)?;
            Ok(Task::Show(Asked::Claims(sought)))
        }
        Command::Haskell => {
            let script = read_checked(alloc, source)?;
            Ok(Task::Show(Asked::Module(script)))
        }
        Command::Ask(question) => {
            let replay = read_replay(alloc, source)?;
            Ok(Task::Show(Asked::Document(question, replay)))
        }
    }
}

// The command that the words are.
fn understood(alloc: Global, words: &[String]) -> Result<Command, Stop>
    ensures exact { MatchResult result
        (λ c. command_by words.now ≡ Some c)
        (IsUnclear (command_by words.now)) }
    ensures within { IfOk result IsWithin }
{
    match read_words(alloc, words) {
        Ok(command) => Ok(command),
        Err(WordsFault::NotUnderstood) => Err(Stop::Words),
        Err(WordsFault::NoMemory) => Err(Stop::Memory),
    }
}

// The code of the script that the source has.
fn read_code<S: Source>(alloc: Global, source: &mut S) -> Result<Code, Stop>
    ensures comes { MatchResult result (λ code. HadScript (S.left source.old) (S.left source.new) (body_of code).of.value)
        (HadNone (Rose (S.faults source.old) (S.faults source.new)) (S.left source.old) (S.left source.new)) }
    ensures counts { MatchResult result (λ code. S.faults source.new ≡ S.faults source.old) (λ stop. Counted stop (S.faults source.old) (S.faults source.new)) }
{
    let bytes = read_bytes(alloc, source, SCRIPT_LIMIT)?;
    code_of(alloc, &bytes)
}

// The code of the script that the source has, and its bytes.
fn read_traced<S: Source>(alloc: Global, source: &mut S) -> Result<(Code, Vec<u8>), Stop>
    ensures comes { MatchResult result (λ read. HadBytes (S.left source.old) (S.left source.new) (body_of read.0).of.value read.1.items)
        (HadNone (Rose (S.faults source.old) (S.faults source.new)) (S.left source.old) (S.left source.new)) }
    ensures counts { MatchResult result (λ read. S.faults source.new ≡ S.faults source.old) (λ stop. Counted stop (S.faults source.old) (S.faults source.new)) }
{
    let bytes = read_bytes(alloc, source, SCRIPT_LIMIT)?;
    let code = code_of(alloc, &bytes)?;
    Ok((code, bytes))
}

// The search of the script that the source has, so far and in this timing.
fn read_search<S: Source>(
    alloc: Global,
    source: &mut S,
    clock: ClockChoice,
    states: u32,
    fuel: u32,
) -> Result<Search, Stop>
    ensures comes { MatchResult result (HadSearch clock states fuel (S.left source.old) (S.left source.new))
        (HadNone (Rose (S.faults source.old) (S.faults source.new)) (S.left source.old) (S.left source.new)) }
    ensures counts { MatchResult result (λ sought. S.faults source.new ≡ S.faults source.old) (λ stop. Counted stop (S.faults source.old) (S.faults source.new)) }
{
    let (code, script) = read_traced(alloc, source)?;
    Ok(Search {
        code,
        script,
        clock,
        states,
        fuel,
    })
}

// The trace and the code of the document that the source has, whatever is asked of it.
fn read_replay<S: Source>(alloc: Global, source: &mut S) -> Result<Replay, Stop>
    ensures comes { (q : AQuestion) → MatchResult result (HasReplay (Some (Ask q)) (S.left source.old) (S.left source.new) q)
        (HasNone (Some (Ask q)) (Rose (S.faults source.old) (S.faults source.new)) (S.left source.old) (S.left source.new)) }
    ensures counts { MatchResult result (λ replay. S.faults source.new ≡ S.faults source.old) (λ stop. Counted stop (S.faults source.old) (S.faults source.new)) }
{
    let document = read_bytes(alloc, source, DOCUMENT_LIMIT)?;
    replay_of(alloc, document)
}

// The script that the source has.
fn read_checked<S: Source>(alloc: Global, source: &mut S) -> Result<Script, Stop>
    ensures comes { MatchResult result (HadScript (S.left source.old) (S.left source.new))
        (HadNone (Rose (S.faults source.old) (S.faults source.new)) (S.left source.old) (S.left source.new)) }
    ensures counts { MatchResult result (λ script. S.faults source.new ≡ S.faults source.old) (λ stop. Counted stop (S.faults source.old) (S.faults source.new)) }
{
    let bytes = read_bytes(alloc, source, SCRIPT_LIMIT)?;
    check_of(alloc, &bytes)
}

// All that the source has left, or the first bytes where there are more than the limit.
fn read_bytes<S: Source>(alloc: Global, source: &mut S, limit: u32) -> Result<Vec<u8>, Stop>
    ensures read { MatchResult result (λ bytes. TakesWhole limit (S.left source.old) (S.left source.new) bytes.items)
        (IsUnread limit (Rose (S.faults source.old) (S.faults source.new)) (S.left source.old) (S.left source.new)) }
    ensures counts { MatchResult result (λ bytes. S.faults source.new ≡ S.faults source.old) (λ stop. Counted stop (S.faults source.old) (S.faults source.new)) }
{
    match read_input(alloc, source, limit) {
        Input::Bytes(bytes) => Ok(bytes),
        Input::Fault => Err(Stop::Read),
        Input::NoMemory => Err(Stop::Memory),
    }
}

// The trace and the code of a document.
fn replay_of(alloc: Global, document: Vec<u8>) -> Result<Replay, Stop>
    ensures { MatchResult result (IsReplay document.items) (IsNoReplay document.items) }
{
    if document.len() > DOCUMENT_LIMIT as usize {
        return Err(Stop::Refused(Refusal::TooLong));
    }
    let Some((at, script)) = split(&document) else {
        return Err(Stop::NoScript);
    };
    let code = code_of(alloc, &document[script..])?;
    let mut trace = document;
    trace.truncate(at);
    Ok(Replay { code, trace })
}

// The code of the ring of so many threads.
fn ring_code(alloc: Global, threads: u32) -> Result<Code, Stop>
    requires some { 1 ≤ threads }
    requires few { threads ≤ 4000 }
    ensures { MatchResult result (λ code. IsAccepted (ring_text threads) (body_of code).of.value) (IsDenied (ring_text threads)) }
{
    match ring(alloc, threads) {
        Ok(text) => code_of(alloc, text.as_str().as_bytes()),
        Err(_) => Err(Stop::Memory),
    }
}

// The code of the script that these bytes are.
fn code_of(alloc: Global, bytes: &[u8]) -> Result<Code, Stop>
    ensures { MatchResult result (λ code. IsAccepted bytes.now (body_of code).of.value) (IsDenied bytes.now) }
{
    match compile(alloc, bytes) {
        Ok(code) => Ok(code),
        Err(fault) => Err(stop_of(fault)),
    }
}

// The accepted script that these bytes are.
fn check_of(alloc: Global, bytes: &[u8]) -> Result<Script, Stop>
    ensures { MatchResult result (IsAccepted bytes.now) (IsDenied bytes.now) }
{
    match accept(alloc, bytes) {
        Ok(checked) => Ok(checked.script),
        Err(fault) => Err(stop_of(fault)),
    }
}

// Why there is no script, where the front has none.
fn stop_of(fault: CompileFault) -> Stop
    ensures { result ≡ stop_of fault }
{
    match fault {
        CompileFault::Refused(refusal) => Stop::Refused(refusal),
        CompileFault::NoMemory => Stop::Memory,
    }
}
