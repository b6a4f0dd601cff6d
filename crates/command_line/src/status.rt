// How a run ends: its status, the file that a refusal speaks of, and the code.
ghost use Rattle.std.specs.Prelude.{◌≡◌};
ghost use Rattle.command_line.specs.Exit.{code_of};

use moos_text::Cause;
use std::fmt;

/// Which file of a run a refusal speaks of.
#[derive(Clone, Copy, Debug, PartialEq, Eq)]
pub enum FileKind {
    Script,
    Mission,
    Behaviors,
    Problem,
    Decision,
    Second,
    Bridge,
    Vehicle,
    Contacts,
}

/// The first refusal of a file: its line, counted from 1, and its cause.
#[derive(Clone, Copy, Debug, PartialEq, Eq)]
pub struct Refusal {
    pub file: FileKind,
    pub line: u32,
    pub cause: Cause,
}

impl fmt::Display for FileKind {
    fn fmt<W: fmt::Write>(&self, f: &mut fmt::Formatter<W>) -> fmt::Result {
        let kind = match self {
            FileKind::Script => "script",
            FileKind::Mission => "mission",
            FileKind::Behaviors => "behaviors",
            FileKind::Problem => "problem",
            FileKind::Decision => "decision",
            FileKind::Second => "second",
            FileKind::Bridge => "bridge",
            FileKind::Vehicle => "vehicle",
            FileKind::Contacts => "contacts",
        };
        write!(f, "{kind}")
    }
}

impl fmt::Display for Refusal {
    fn fmt<W: fmt::Write>(&self, f: &mut fmt::Formatter<W>) -> fmt::Result {
        write!(f, "{} line {}: {}", self.file, self.line, self.cause.text())
    }
}

/// How a run ended.
#[derive(Clone, Copy, Debug, PartialEq, Eq)]
pub enum Status {
    /// All was written.
    Done,
    /// The decision that was checked isn't accepted.
    CheckNo,
    /// The command line is no job of the program.
    Usage,
    /// A file couldn't be read.
    LoadFault,
    /// The output couldn't be written whole.
    WriteFault,
    /// A file isn't in its format.
    Refused(Refusal),
    /// No memory was left.
    NoMemory,
}

/// The exit status of the program: 0 for `Done`, and then in the order of the variants.
pub fn code(status: &Status) -> u8
    ensures { result ≡ code_of status.now }
{
    match status {
        Status::Done => 0,
        Status::CheckNo => 1,
        Status::Usage => 2,
        Status::LoadFault => 3,
        Status::WriteFault => 4,
        Status::Refused(_) => 5,
        Status::NoMemory => 6,
    }
}
