// The job that a command line asks for.
ghost use Rattle.std.specs.Prelude.{◌≡◌, IfOk, IfSome, option_and_then, option_map};
ghost use Rattle.command_line.specs.Commands.{check_command, found_in, generate_command, play_command, share_command, simulate_command, solve_command};
ghost use Rattle.command_line.specs.Jobs.{HasFewWorkers, check_of, generate_of, job_named, order_in, other_file_in, play_of, share_of, simulate_of, solve_of};
ghost use Rattle.clap.specs.Words.{found_of, rows_of};

use crate::commands::{
    check_command, file_in, found_in, generate_command, is_set, number_in, play_command,
    share_command, simulate_command, solve_command, workers_in,
};
use crate::words::{Word, Words};
use clap::ArgMatches;
use moos_post::{NoMemory, Txt};
use script_reader::Order;
use std::alloc::Global;

/// A job, with the names of the files that its command line names.
#[derive(Debug, Drop)]
pub enum Job {
    /// Plays a script, with the helm of a mission if one is named, and reports what came of it. The helm has so many
    /// workers, from 1 to 16.
    Play {
        script: Txt,
        mission: Option<Txt>,
        order: Order,
        workers: u32,
    },
    /// Decides a problem by so many workers, from 1 to 16.
    Solve {
        problem: Txt,
        workers: u32,
    },
    /// Checks a decision.
    Check {
        decision: Txt,
    },
    /// Plays the mission that is made from this number, and sums it up.
    Generate {
        number: u64,
    },
    /// Plays two scripts, each in a community of its own, and carries posts from the first to the second by the lines of a
    /// bridge file.
    Share {
        first: Txt,
        second: Txt,
        bridge: Txt,
        order: Order,
    },
    /// Plays a script in order of its stamps with the helm of a mission, which steers the simulated vehicle of a vehicle file,
    /// and with the contact manager of a contacts file, if one is named. The helm has so many workers, from 1 to 16.
    Simulate {
        script: Txt,
        mission: Txt,
        vehicle: Txt,
        contacts: Option<Txt>,
        workers: u32,
    },
}

/// The job that the words name: the first is that of a job, whose command takes them.
pub fn job_named(alloc: Global, words: &Words) -> Result<Option<Job>, NoMemory>
    ensures named { IfOk result (λ job. job ≡ job_named words.now) }
    ensures few { IfOk result (λ job. IfSome job HasFewWorkers) }
{
    let line = words.all();
    match line {
        [word, ..] if word.bytes() == b"play".as_slice() => play_named(alloc, line),
        [word, ..] if word.bytes() == b"solve".as_slice() => solve_named(alloc, line),
        [word, ..] if word.bytes() == b"check".as_slice() => check_named(alloc, line),
        [word, ..] if word.bytes() == b"generate".as_slice() => generate_named(alloc, line),
        [word, ..] if word.bytes() == b"share".as_slice() => share_named(alloc, line),
        [word, ..] if word.bytes() == b"simulate".as_slice() => simulate_named(alloc, line),
        _ => Ok(None),
    }
}

// The job of a line that begins with `play`.
fn play_named(alloc: Global, line: &[Word]) -> Result<Option<Job>, NoMemory>
    ensures named { IfOk result (λ job. job ≡ option_and_then play_of (found_in play_command line.now)) }
    ensures few { IfOk result (λ job. IfSome job HasFewWorkers) }
{
    match found_in(play_command(alloc)?, line)? {
        Some(matches) => play_of(alloc, &matches),
        None => Ok(None),
    }
}

fn play_of(alloc: Global, matches: &ArgMatches) -> Result<Option<Job>, NoMemory>
    ensures named { IfOk result (λ job. job ≡ play_of (rows_of (found_of matches.now))) }
    ensures few { IfOk result (λ job. IfSome job HasFewWorkers) }
{
    let order = order_in(matches);
    let workers = workers_in(matches);
    let Some(script) = file_in(alloc, matches, "script")? else {
        return Ok(None);
    };
    match other_file_in(alloc, matches, "mission")? {
        Some(mission) => Ok(Some(Job::Play {
            script,
            mission,
            order,
            workers,
        })),
        None => Ok(None),
    }
}

// The name of a file that need not be there, if one was found; and none if what was found is no name of a file.
fn other_file_in(
    alloc: Global,
    matches: &ArgMatches,
    id: &str,
) -> Result<Option<Option<Txt>>, NoMemory>
    ensures { IfOk result (λ name. name ≡ other_file_in id.now (rows_of (found_of matches.now))) }
{
    if matches.get_str(id).is_none() {
        return Ok(Some(None));
    }
    match file_in(alloc, matches, id)? {
        Some(name) => Ok(Some(Some(name))),
        None => Ok(None),
    }
}

fn order_in(matches: &ArgMatches) -> Order
    ensures { result ≡ order_in (rows_of (found_of matches.now)) }
{
    if is_set(matches, "race") {
        Order::Race
    } else {
        Order::Stamp
    }
}

// The job of a line that begins with `solve`.
fn solve_named(alloc: Global, line: &[Word]) -> Result<Option<Job>, NoMemory>
    ensures named { IfOk result (λ job. job ≡ option_and_then solve_of (found_in solve_command line.now)) }
    ensures few { IfOk result (λ job. IfSome job HasFewWorkers) }
{
    match found_in(solve_command(alloc)?, line)? {
        Some(matches) => solve_of(alloc, &matches),
        None => Ok(None),
    }
}

fn solve_of(alloc: Global, matches: &ArgMatches) -> Result<Option<Job>, NoMemory>
    ensures named { IfOk result (λ job. job ≡ solve_of (rows_of (found_of matches.now))) }
    ensures few { IfOk result (λ job. IfSome job HasFewWorkers) }
{
    let workers = workers_in(matches);
    match file_in(alloc, matches, "problem") {
        Ok(Some(problem)) => Ok(Some(Job::Solve { problem, workers })),
        Ok(None) => Ok(None),
        Err(no_memory) => Err(no_memory),
    }
}

// The job of a line that begins with `check`.
fn check_named(alloc: Global, line: &[Word]) -> Result<Option<Job>, NoMemory>
    ensures named { IfOk result (λ job. job ≡ option_and_then check_of (found_in check_command line.now)) }
    ensures few { IfOk result (λ job. IfSome job HasFewWorkers) }
{
    match found_in(check_command(alloc)?, line)? {
        Some(matches) => check_of(alloc, &matches),
        None => Ok(None),
    }
}

fn check_of(alloc: Global, matches: &ArgMatches) -> Result<Option<Job>, NoMemory>
    ensures named { IfOk result (λ job. job ≡ check_of (rows_of (found_of matches.now))) }
    ensures few { IfOk result (λ job. IfSome job HasFewWorkers) }
{
    match file_in(alloc, matches, "decision") {
        Ok(Some(decision)) => Ok(Some(Job::Check { decision })),
        Ok(None) => Ok(None),
        Err(no_memory) => Err(no_memory),
    }
}

// The job of a line that begins with `generate`.
fn generate_named(alloc: Global, line: &[Word]) -> Result<Option<Job>, NoMemory>
    ensures named { IfOk result (λ job. job ≡ option_map generate_of (found_in generate_command line.now)) }
    ensures few { IfOk result (λ job. IfSome job HasFewWorkers) }
{
    match found_in(generate_command(alloc)?, line)? {
        Some(matches) => {
            let number = number_in(&matches);
            Ok(Some(Job::Generate { number }))
        }
        None => Ok(None),
    }
}

// The job of a line that begins with `share`.
fn share_named(alloc: Global, line: &[Word]) -> Result<Option<Job>, NoMemory>
    ensures named { IfOk result (λ job. job ≡ option_and_then share_of (found_in share_command line.now)) }
    ensures few { IfOk result (λ job. IfSome job HasFewWorkers) }
{
    match found_in(share_command(alloc)?, line)? {
        Some(matches) => share_of(alloc, &matches),
        None => Ok(None),
    }
}

fn share_of(alloc: Global, matches: &ArgMatches) -> Result<Option<Job>, NoMemory>
    ensures named { IfOk result (λ job. job ≡ share_of (rows_of (found_of matches.now))) }
    ensures few { IfOk result (λ job. IfSome job HasFewWorkers) }
{
    let order = order_in(matches);
    let Some(first) = file_in(alloc, matches, "first")? else {
        return Ok(None);
    };
    let Some(second) = file_in(alloc, matches, "second")? else {
        return Ok(None);
    };
    match file_in(alloc, matches, "bridge")? {
        Some(bridge) => Ok(Some(Job::Share {
            first,
            second,
            bridge,
            order,
        })),
        None => Ok(None),
    }
}

// The job of a line that begins with `simulate`.
fn simulate_named(alloc: Global, line: &[Word]) -> Result<Option<Job>, NoMemory>
    ensures named { IfOk result (λ job. job ≡ option_and_then simulate_of (found_in simulate_command line.now)) }
    ensures few { IfOk result (λ job. IfSome job HasFewWorkers) }
{
    match found_in(simulate_command(alloc)?, line)? {
        Some(matches) => simulate_of(alloc, &matches),
        None => Ok(None),
    }
}

fn simulate_of(alloc: Global, matches: &ArgMatches) -> Result<Option<Job>, NoMemory>
    ensures named { IfOk result (λ job. job ≡ simulate_of (rows_of (found_of matches.now))) }
    ensures few { IfOk result (λ job. IfSome job HasFewWorkers) }
{
    let workers = workers_in(matches);
    let Some(script) = file_in(alloc, matches, "script")? else {
        return Ok(None);
    };
    let Some(mission) = file_in(alloc, matches, "mission")? else {
        return Ok(None);
    };
    let Some(vehicle) = file_in(alloc, matches, "vehicle")? else {
        return Ok(None);
    };
    match other_file_in(alloc, matches, "contacts")? {
        Some(contacts) => Ok(Some(Job::Simulate {
            script,
            mission,
            vehicle,
            contacts,
            workers,
        })),
        None => Ok(None),
    }
}
