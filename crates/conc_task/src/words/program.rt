//! The command line that the program takes.
ghost use Rattle.std.specs.Prelude.{◌≡◌, IfOk, false};
ghost use Rattle.clap.specs.Simple.{new_app};
ghost use Rattle.clap.specs.Words.{app_of, rule_of};
ghost use Rattle.clap.specs.declared.builder.command.Command.TheViews.{out-Command as fields_of};
ghost use Rattle.conc_task.specs.words.Program.{bench, capabilities_option, clock_option, count_option, outcomes, program, runner, searcher, threads_place, witness_option};

use clap::{Arg, Command, value_parser};
use std::alloc::{AllocError, Global};

/// The ids of the arguments, which are the long names of the options too.
pub(crate) const CAPABILITIES: &str = "caps";

pub(crate) const FUEL: &str = "fuel";

pub(crate) const CLOCK: &str = "clock";

pub(crate) const THREADS: &str = "threads";

pub(crate) const STATES: &str = "states";

pub(crate) const WITNESS: &str = "witness";

fn capabilities_option<'a>(alloc: Global) -> Arg<'a>
    ensures rule { rule_of result ≡ capabilities_option }
    ensures local { result.global ≡ false }
{
    Arg::new(alloc, CAPABILITIES)
        .long(CAPABILITIES)
        .value_parser(value_parser!(u8).range(1..=16))
        .default_value("1")
}

/// An option that says how many steps or states there may be, by its id.
fn count_option<'a>(alloc: Global, id: &'a str) -> Arg<'a>
    ensures rule { rule_of result ≡ count_option id.entry.now }
    ensures local { result.global ≡ false }
{
    Arg::new(alloc, id)
        .long(id)
        .value_parser(value_parser!(u32).range(1..=4_000_000))
        .default_value("1000000")
}

fn clock_option<'a>(alloc: Global) -> Arg<'a>
    ensures rule { rule_of result ≡ clock_option }
    ensures local { result.global ≡ false }
{
    Arg::new(alloc, CLOCK).long(CLOCK).default_value("real")
}

fn witness_option<'a>(alloc: Global) -> Arg<'a>
    ensures rule { rule_of result ≡ witness_option }
    ensures local { result.global ≡ false }
{
    Arg::new(alloc, WITNESS)
        .long(WITNESS)
        .value_parser(value_parser!(u32).range(1..=4_294_967_295))
}

fn threads_place<'a>(alloc: Global) -> Arg<'a>
    ensures rule { rule_of result ≡ threads_place }
    ensures local { result.global ≡ false }
{
    Arg::new(alloc, THREADS)
        .value_parser(value_parser!(u32).range(1..=4_000))
        .required(true)
}

/// A command that runs a script, by its name.
fn runner<'a>(alloc: Global, name: &'a str) -> Result<Command<'a>, AllocError>
    ensures shape { IfOk result (λ c. app_of c ≡ runner name.entry.now) }
    ensures local { IfOk result (λ c. (fields_of c).has_globals ≡ false) }
{
    Command::new(alloc, name)
        .arg(capabilities_option(alloc))?
        .arg(count_option(alloc, FUEL))?
        .arg(clock_option(alloc))
}

/// A command that takes nothing, by its name.
fn plain<'a>(alloc: Global, name: &'a str) -> Command<'a>
    ensures shape { app_of result ≡ new_app name.entry.now }
    ensures local { (fields_of result).has_globals ≡ false }
{
    Command::new(alloc, name)
}

fn bench<'a>(alloc: Global) -> Result<Command<'a>, AllocError>
    ensures shape { IfOk result (λ c. app_of c ≡ bench) }
    ensures local { IfOk result (λ c. (fields_of c).has_globals ≡ false) }
{
    Command::new(alloc, "bench")
        .arg(threads_place(alloc))?
        .arg(capabilities_option(alloc))?
        .arg(count_option(alloc, FUEL))
}

/// A command that searches the outcomes of a script, by its name.
fn searcher<'a>(alloc: Global, name: &'a str) -> Result<Command<'a>, AllocError>
    ensures shape { IfOk result (λ c. app_of c ≡ searcher name.entry.now) }
    ensures local { IfOk result (λ c. (fields_of c).has_globals ≡ false) }
{
    Command::new(alloc, name)
        .arg(clock_option(alloc))?
        .arg(count_option(alloc, STATES))?
        .arg(count_option(alloc, FUEL))
}

fn outcomes<'a>(alloc: Global) -> Result<Command<'a>, AllocError>
    ensures shape { IfOk result (λ c. app_of c ≡ outcomes) }
    ensures local { IfOk result (λ c. (fields_of c).has_globals ≡ false) }
{
    searcher(alloc, "outcomes")?.arg(witness_option(alloc))
}

/// The program, which takes the words after its name and one of its subcommands among them.
pub(crate) fn program<'a>(alloc: Global) -> Result<Command<'a>, AllocError>
    ensures { IfOk result (λ c. app_of c ≡ program) }
{
    Command::new(alloc, "conc_run")
        .no_binary_name(true)
        .disable_help_flag(true)
        .disable_help_subcommand(true)
        .subcommand_required(true)
        .subcommand(runner(alloc, "run")?)?
        .subcommand(plain(alloc, "check"))?
        .subcommand(bench(alloc)?)?
        .subcommand(runner(alloc, "trace")?)?
        .subcommand(outcomes(alloc)?)?
        .subcommand(searcher(alloc, "claims")?)?
        .subcommand(plain(alloc, "haskell"))?
        .subcommand(plain(alloc, "verify"))?
        .subcommand(plain(alloc, "report"))?
        .subcommand(plain(alloc, "picture"))
}
