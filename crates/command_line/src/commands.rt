// The commands of the program's jobs, and what they find in the words of a command line.
ghost use Rattle.std.specs.Prelude.{◌≡◌, ◌≤◌, IfOk, Some, codes, option_map, false};
ghost use Rattle.clap.specs.Words.{app_of, found_of, new_app, rows_of, rule_of, with_rule};
ghost use Rattle.command_line.specs.Commands.{IsPlain, bounded, bounded_in, check_command, file_in, file_rule, found_in, generate_command, is_set, number_in, number_rule, other_file_rule, play_command, race_rule, share_command, simulate_command, solve_command, text_of, workers_in, workers_rule};

use crate::words::Word;
use clap::error::ErrorKind;
use clap::{Arg, ArgAction, ArgMatches, Command, value_parser};
use moos_post::{NoMemory, Txt, TxtFault};
use std::alloc::{AllocError, Global};

/// `play SCRIPT [MISSION] [--workers N] [--race]`
pub fn play_command<'a>(alloc: Global) -> Result<Command<'a>, NoMemory>
    ensures { IfOk result (λ command. app_of command ≡ play_command) }
{
    with_options(alloc, files_command(alloc)?)
}

// `play SCRIPT [MISSION]`
fn files_command<'a>(alloc: Global) -> Result<Command<'a>, NoMemory>
    ensures { IfOk result (λ command. app_of command
        ≡ with_rule (with_rule (new_app (codes "play")) (file_rule (codes "script"))) (other_file_rule (codes "mission"))) }
{
    Command::new(alloc, "play")
        .arg(file_arg(alloc, "script"))?
        .arg(other_file_arg(alloc, "mission"))
}

// The command, and then `[--workers N] [--race]`.
fn with_options<'a>(alloc: Global, command: Command<'a>) -> Result<Command<'a>, NoMemory>
    ensures { IfOk result (λ more. app_of more ≡ with_rule (with_rule (app_of command.entry) workers_rule) race_rule) }
{
    command.arg(workers_arg(alloc))?.arg(race_arg(alloc))
}

/// `solve PROBLEM [--workers N]`
pub fn solve_command<'a>(alloc: Global) -> Result<Command<'a>, NoMemory>
    ensures { IfOk result (λ command. app_of command ≡ solve_command) }
{
    Command::new(alloc, "solve")
        .arg(file_arg(alloc, "problem"))?
        .arg(workers_arg(alloc))
}

/// `check DECISION`
pub fn check_command<'a>(alloc: Global) -> Result<Command<'a>, NoMemory>
    ensures { IfOk result (λ command. app_of command ≡ check_command) }
{
    Command::new(alloc, "check").arg(file_arg(alloc, "decision"))
}

/// `generate NUMBER`
pub fn generate_command<'a>(alloc: Global) -> Result<Command<'a>, NoMemory>
    ensures { IfOk result (λ command. app_of command ≡ generate_command) }
{
    Command::new(alloc, "generate").arg(number_arg(alloc))
}

/// `share FIRST SECOND BRIDGE [--race]`
pub fn share_command<'a>(alloc: Global) -> Result<Command<'a>, NoMemory>
    ensures { IfOk result (λ command. app_of command ≡ share_command) }
{
    three_files_command(alloc, "share", "first", "second", "bridge")?.arg(race_arg(alloc))
}

/// `simulate SCRIPT MISSION VEHICLE [CONTACTS] [--workers N]`
pub fn simulate_command<'a>(alloc: Global) -> Result<Command<'a>, NoMemory>
    ensures { IfOk result (λ command. app_of command ≡ simulate_command) }
{
    three_files_command(alloc, "simulate", "script", "mission", "vehicle")?
        .arg(other_file_arg(alloc, "contacts"))?
        .arg(workers_arg(alloc))
}

// A command of this name, with the names of three files that must be there.
fn three_files_command<'a>(
    alloc: Global,
    name: &'a str,
    first: &'a str,
    second: &'a str,
    third: &'a str,
) -> Result<Command<'a>, NoMemory>
    ensures { IfOk result (λ command. app_of command
        ≡ with_rule (with_rule (with_rule (new_app name.entry.now) (file_rule first.entry.now)) (file_rule second.entry.now)) (file_rule third.entry.now)) }
{
    Command::new(alloc, name)
        .arg(file_arg(alloc, first))?
        .arg(file_arg(alloc, second))?
        .arg(file_arg(alloc, third))
}

// The name of a file.
fn file_arg<'a>(alloc: Global, id: &'a str) -> Arg<'a>
    ensures rule { rule_of result ≡ file_rule id.entry.now }
    ensures local { result.global ≡ false }
{
    Arg::new(alloc, id).required(true)
}

// The name of a file that need not be there.
fn other_file_arg<'a>(alloc: Global, id: &'a str) -> Arg<'a>
    ensures rule { rule_of result ≡ other_file_rule id.entry.now }
    ensures local { result.global ≡ false }
{
    Arg::new(alloc, id)
}

// `--race`
fn race_arg<'a>(alloc: Global) -> Arg<'a>
    ensures rule { rule_of result ≡ race_rule }
    ensures local { result.global ≡ false }
{
    Arg::new(alloc, "race")
        .long("race")
        .action(ArgAction::SetTrue)
}

// `--workers N`
fn workers_arg<'a>(alloc: Global) -> Arg<'a>
    ensures rule { rule_of result ≡ workers_rule }
    ensures local { result.global ≡ false }
{
    Arg::new(alloc, "workers")
        .long("workers")
        .value_parser(value_parser!(u64).range(1..=16))
        .default_value("1")
}

// The number of a mission.
fn number_arg<'a>(alloc: Global) -> Arg<'a>
    ensures rule { rule_of result ≡ number_rule }
    ensures local { result.global ≡ false }
{
    Arg::new(alloc, "number")
        .required(true)
        .value_parser(value_parser!(u64).range(0..=999_999_999))
}

/// What a command finds in a line, or none if it doesn't take it.
pub fn found_in<'a>(
    command: Command<'a>,
    line: &'a [Word],
) -> Result<Option<ArgMatches<'a>>, NoMemory>
    requires { IsPlain (app_of command) }
    ensures { IfOk result (λ matches. option_map (λ m. rows_of (found_of m)) matches ≡ found_in (app_of command.entry) line.now) }
{
    match command.try_get_matches_from(line) {
        Ok(matches) => Ok(Some(matches)),
        Err(error) if error.kind() == ErrorKind::OutOfMemory => Err(AllocError),
        Err(_) => Ok(None),
    }
}

/// The name of the file that was found, if a text can hold it.
pub fn file_in(alloc: Global, matches: &ArgMatches, id: &str) -> Result<Option<Txt>, NoMemory>
    ensures { IfOk result (λ name. name ≡ file_in id.now (rows_of (found_of matches.now))) }
{
    match matches.get_str(id) {
        Some(name) => text_of(alloc, name.as_bytes()),
        None => Ok(None),
    }
}

/// Whether a flag was found.
pub fn is_set(matches: &ArgMatches, id: &str) -> bool
    ensures { result ≡ is_set id.now (rows_of (found_of matches.now)) }
{
    match matches.get_str(id) {
        Some(value) => value == "true",
        None => false,
    }
}

/// The number of workers that was found.
pub fn workers_in(matches: &ArgMatches) -> u32
    ensures found { result ≡ workers_in (rows_of (found_of matches.now)) }
    ensures within { (1 ≤ result) × (result ≤ 16) }
{
    bounded_in(matches, "workers", 1, 16) as u32
}

/// The number of the mission that was found.
pub fn number_in(matches: &ArgMatches) -> u64
    ensures { result ≡ number_in (rows_of (found_of matches.now)) }
{
    bounded_in(matches, "number", 0, 999_999_999)
}

// The number within the bounds that was found.
fn bounded_in(matches: &ArgMatches, id: &str, low: u64, high: u64) -> u64
    requires { low ≤ high }
    ensures found { result ≡ bounded_in low high id.now (rows_of (found_of matches.now)) }
    ensures within { (low ≤ result) × (result ≤ high) }
{
    match matches.get_one::<u64>(id) {
        Some(number) => bounded(number, low, high),
        None => low,
    }
}

// The number, if it is within the bounds, and else the lower one.
fn bounded(number: u64, low: u64, high: u64) -> u64
    requires { low ≤ high }
    ensures bounded { result ≡ bounded low high number }
    ensures within { (low ≤ result) × (result ≤ high) }
{
    if low <= number && number <= high {
        number
    } else {
        low
    }
}

// The bytes as a text, if a text can hold them.
fn text_of(alloc: Global, bytes: &[u8]) -> Result<Option<Txt>, NoMemory>
    ensures { IfOk result (λ text. text ≡ text_of bytes.now) }
{
    match Txt::new(alloc, bytes) {
        Ok(text) => Ok(Some(text)),
        Err(TxtFault::TooLong(_)) => Ok(None),
        Err(TxtFault::BadByte(_)) => Ok(None),
        Err(TxtFault::NoMemory) => Err(AllocError),
    }
}
