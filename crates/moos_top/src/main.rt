//! The program: the trusted edge, which hands the real command line, files and standard output to `run` of `moos_jobs`, and
//! tells by a line on standard error and the exit status how the run ended.
#![tactic(auto)]

ghost use Rattle.std.specs.Prelude.{◌≡◌, [], None, Some};
ghost use Rattle.command_line.specs.Endings.{sinking, surroundings};
ghost use Rattle.moos_files.specs.Answers.{unsure_faring};
ghost use Rattle.moos_jobs.specs.Run.{EndsWith};

use moos_files::{DirFolder, GatheringSink, OutSink};
use moos_io::NoGate;
use moos_jobs::{Status, Word, Words, code, run, run_law};
use std::alloc::Global;
use std::io::IsTerminal;
use std::process::ExitCode;
use std::rt::Files;
use std::sync::Wait;
use std::thread::Threads;
use std::{env, io};

fn main(rt: HostRuntime) -> ExitCode {
    let status = match command_line(&rt) {
        Ok(words) => {
            let mut folder = DirFolder::make(&rt);
            // Who looks on sees each round as it is put; a file or a pipe gets few large pieces.
            let mut out = GatheringSink::make(OutSink::make(&rt), rt.stdout().is_terminal());
            run_whole(&rt, rt.alloc(), &words, &mut folder, &mut out)
        }
        Err(status) => status,
    };
    // A law is an empty function. What its contract says of runs holds of this run.
    run_law();
    // If standard error fails too, the exit status still tells.
    let _ = print_failure(&rt, &status);
    ExitCode::from(code(&status))
}

// Runs the job over the files of the system, and passes on to standard output what is still held at the end. If that fails,
// it is a write fault. What the status says, it says of the bytes that the system gave, and of those that it said it took.
fn run_whole<R: Threads + Wait + Sync, H: Files + Print>(
    rt: &R,
    alloc: Global,
    words: &Words,
    folder: &mut DirFolder<'_, H>,
    out: &mut GatheringSink<OutSink<'_, H>>,
) -> Status
    requires begun { out.old ≡ record { sink = record { taken = []; faults = 0 }; held = [] } }
    ensures ended { EndsWith words.now (surroundings None [] folder.old folder.new
        (sinking (Some []) (Some out.new.sink.taken) (unsure_faring 0) (unsure_faring out.new.sink.faults))) result }
{
    let status = run(rt, alloc, words, folder, out, &NoGate);
    match out.finish() {
        Ok(()) => status,
        Err(_) => Status::WriteFault,
    }
}

// The words behind the program's name. One that isn't UTF-8 is on no command line of the program.
fn command_line(rt: &HostRuntime) -> Result<Words, Status> {
    let mut words = Words::new(rt.alloc());
    let args = match env::args(rt) {
        Ok(args) => args,
        Err(error) if error.kind() == io::ErrorKind::InvalidData => return Err(Status::Usage),
        Err(_) => return Err(Status::NoMemory),
    };
    for text in args.skip(1) {
        if words.push(Word::new(text)).is_err() {
            return Err(Status::NoMemory);
        }
    }
    Ok(words)
}

// The line that standard error gets if the run didn't end well.
fn print_failure(rt: &impl Eprint, status: &Status) -> io::Result<()> {
    match status {
        Status::Done | Status::CheckNo => Ok(()),
        Status::Usage => eprintln!(rt; "moos: usage"),
        Status::LoadFault => eprintln!(rt; "moos: load fault"),
        Status::WriteFault => eprintln!(rt; "moos: write fault"),
        Status::Refused(refusal) => eprintln!(rt; "moos: {refusal}"),
        Status::NoMemory => eprintln!(rt; "moos: no memory"),
    }
}
