ghost use Rattle.std.specs.Prelude.{◌≡◌, IfErr, IfOk, MatchResult, None, Some, codes, false, true};
ghost use Rattle.clap.specs.Words.{found_of, rows_of, subcommand_of, subcommand_rows_of, takes};
ghost use Rattle.conc_task.specs.words.Program.{program};
ghost use Rattle.conc_task.specs.words.Commands.{IsRefused, IsWithin, bench_of, claims_of, command_by, command_in, number_of, outcomes_of, run_of, texts_of, trace_of, WhenNotUnderstood, clock_of};

use crate::words::program::{CAPABILITIES, CLOCK, FUEL, STATES, THREADS, WITNESS, program};
use crate::words::{Command, Question, WordsFault};
use clap::ArgMatches;
use hs_base::ClockChoice;
use std::alloc::Global;

/// Reads the words after the program's name.
///
/// Words that ask for help or for a version are no command.
pub fn read_words(alloc: Global, words: &[String]) -> Result<Command, WordsFault>
    // The command that the words are. Want of memory alone is free.
    ensures exact { MatchResult result
        (λ c. command_by words.now ≡ Some c)
        (WhenNotUnderstood (command_by words.now ≡ None)) }

    // Its numbers lie in the ranges of the program, so that no reading of a number is refused.
    ensures within { IfOk result IsWithin }
    ensures refused { IfErr result (WhenNotUnderstood (IsRefused (texts_of words.now))) }
{
    let matches = matches_of(alloc, words)?;
    command_in(&matches).ok_or(WordsFault::NotUnderstood)
}

fn matches_of<'a>(alloc: Global, words: &'a [String]) -> Result<ArgMatches<'a>, WordsFault>
    ensures { MatchResult result
        (λ m. (takes program (texts_of words.entry.now) ≡ true) × (subcommand_rows_of m ≡ subcommand_of program (texts_of words.entry.now)))
        (WhenNotUnderstood (takes program (texts_of words.entry.now) ≡ false)) }
{
    let command = program(alloc)?;
    Ok(command.try_get_matches_from(words)?)
}

// The command that the matches of a subcommand say.
fn command_in(matches: &ArgMatches<'_>) -> Option<Command>
    ensures { result ≡ command_in (subcommand_rows_of matches.now) }
{
    let (name, entries) = matches.subcommand()?;
    match name {
        "run" => run_in(entries),
        "check" => Some(Command::Check),
        "bench" => bench_in(entries),
        "trace" => trace_in(entries),
        "outcomes" => outcomes_in(entries),
        "claims" => claims_in(entries),
        "haskell" => Some(Command::Haskell),
        "verify" => Some(Command::Ask(Question::Verify)),
        "report" => Some(Command::Ask(Question::Report)),
        "picture" => Some(Command::Ask(Question::Picture)),
        _ => None,
    }
}

fn run_in(entries: &ArgMatches<'_>) -> Option<Command>
    ensures { result ≡ run_of (rows_of (found_of entries.now)) }
{
    Some(Command::Run {
        capabilities: capabilities_in(entries)?,
        fuel: fuel_in(entries)?,
        clock: clock_in(entries)?,
    })
}

fn bench_in(entries: &ArgMatches<'_>) -> Option<Command>
    ensures { result ≡ bench_of (rows_of (found_of entries.now)) }
{
    Some(Command::Bench {
        threads: threads_in(entries)?,
        capabilities: capabilities_in(entries)?,
        fuel: fuel_in(entries)?,
    })
}

fn trace_in(entries: &ArgMatches<'_>) -> Option<Command>
    ensures { result ≡ trace_of (rows_of (found_of entries.now)) }
{
    Some(Command::Trace {
        capabilities: capabilities_in(entries)?,
        fuel: fuel_in(entries)?,
        clock: clock_in(entries)?,
    })
}

fn outcomes_in(entries: &ArgMatches<'_>) -> Option<Command>
    ensures { result ≡ outcomes_of (rows_of (found_of entries.now)) }
{
    Some(Command::Outcomes {
        clock: clock_in(entries)?,
        states: states_in(entries)?,
        fuel: fuel_in(entries)?,
        witness: witness_in(entries),
    })
}

fn claims_in(entries: &ArgMatches<'_>) -> Option<Command>
    ensures { result ≡ claims_of (rows_of (found_of entries.now)) }
{
    Some(Command::Claims {
        clock: clock_in(entries)?,
        states: states_in(entries)?,
        fuel: fuel_in(entries)?,
    })
}

fn capabilities_in(entries: &ArgMatches<'_>) -> Option<u8>
    ensures { result ≡ number_of 8 (codes "caps") (rows_of (found_of entries.now)) }
{
    entries.get_one(CAPABILITIES)
}

fn fuel_in(entries: &ArgMatches<'_>) -> Option<u32>
    ensures { result ≡ number_of 32 (codes "fuel") (rows_of (found_of entries.now)) }
{
    entries.get_one(FUEL)
}

fn threads_in(entries: &ArgMatches<'_>) -> Option<u32>
    ensures { result ≡ number_of 32 (codes "threads") (rows_of (found_of entries.now)) }
{
    entries.get_one(THREADS)
}

fn states_in(entries: &ArgMatches<'_>) -> Option<u32>
    ensures { result ≡ number_of 32 (codes "states") (rows_of (found_of entries.now)) }
{
    entries.get_one(STATES)
}

fn witness_in(entries: &ArgMatches<'_>) -> Option<u32>
    ensures { result ≡ number_of 32 (codes "witness") (rows_of (found_of entries.now)) }
{
    entries.get_one(WITNESS)
}

fn clock_in(entries: &ArgMatches<'_>) -> Option<ClockChoice>
    ensures { result ≡ clock_of (rows_of (found_of entries.now)) }
{
    match entries.get_str(CLOCK)? {
        "real" => Some(ClockChoice::Real),
        "virtual" => Some(ClockChoice::Virtual),
        _ => None,
    }
}
