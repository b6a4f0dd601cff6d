// Why a line is refused.
ghost use Rattle.std.specs.Prelude.{◌≡◌};
ghost use Rattle.moos_text.specs.Causes.{cause_text};
ghost use Rattle.moos_text.specs.Refusals.{fault_at};

use std::alloc::AllocError;

/// A limit of a script that a line passes.
#[derive(Clone, Copy, Debug, PartialEq, Eq)]
pub enum Limit {
    /// How many clients a script has.
    Clients,
    /// How many times a client of a script registers.
    Registrations,
    /// How many variables a script posts.
    Variables,
    /// How many of a script's lines aren't blank.
    Lines,
    /// How many pairs a post has.
    Batch,
    /// How many bytes a text has.
    Text,
}

/// Why a reader refuses a file: `S` in a script, `M` in a mission, `B` in a behaviour file, `P` in a problem or a
/// decision, `G` in a bridge file, `V` in a vehicle file and `C` in a contacts file. `S10` and `S11` are given if a job
/// adds clients of its own.
#[derive(Clone, Copy, Debug, PartialEq, Eq)]
pub enum Cause {
    /// A line's first word is no stamp.
    S1,
    /// A stamp below one of an earlier line.
    S2,
    /// A missing or unknown operation, or a word that it does not take.
    S3,
    /// A client or a variable that is no name.
    S4,
    /// An open quote, a missing pair, or a pair without a good value.
    S5,
    /// A missing or bad pattern.
    S6,
    /// An interval that is no number of its range.
    S7,
    /// More than the limit allows.
    S8(Limit),
    /// A client with the helm's name.
    S9,
    /// A client with the bridge's name.
    S10,
    /// A client with the name of one that the job adds.
    S11,
    /// A line that fits no place of a mission.
    M1,
    /// The file ends in a block.
    M2,
    /// A bad axis of the domain.
    M3,
    /// A domain of too many points.
    M4,
    /// No domain.
    M5,
    /// A tick rate outside its range.
    M6,
    /// No behaviour file.
    M7,
    /// More iterations than the limit allows.
    M8,
    /// A line that fits no place of a behaviour file.
    B1,
    /// The file ends in a block.
    B2,
    /// An unknown type of behaviour.
    B3,
    /// A name that a behaviour has already.
    B4,
    /// A bad condition.
    B5,
    /// A parameter, or a relation between parameters, out of range.
    B6,
    /// A parent that no earlier mode is.
    B7,
    /// A parent that several earlier modes are.
    B8,
    /// More than a limit allows.
    B9,
    /// An axis is missing that the behaviour needs.
    B10,
    /// A parameter is missing that the behaviour needs.
    B11,
    /// A line that fits no place of a problem or a decision.
    P1,
    /// A bad domain.
    P2,
    /// A box that lies outside the domain, or is empty.
    P3,
    /// A function's pieces are no partition of the domain.
    P4,
    /// A value of a function out of range.
    P5,
    /// A weight out of range.
    P6,
    /// Too many functions, or too many pieces of one.
    P7,
    /// A problem without a function.
    P8,
    /// The file ends too early.
    P9,
    /// A point outside the domain.
    P10,
    /// A line that fits no place of a bridge file.
    G1,
    /// A bad pattern.
    G2,
    /// An interval that is no number of its range.
    G3,
    /// A prefix that makes a name too long.
    G4,
    /// A bad prefix.
    G5,
    /// More lines than the limit allows.
    G6,
    /// A line that fits no place of a vehicle file.
    V1,
    /// A value that is no number of its range.
    V2,
    /// A line that fits no place of a contacts file.
    C1,
    /// A value that is no number of its range.
    C2,
    /// A range at which contacts are cleared below the one at which they are told.
    C3,
}

/// Why a reader gives no value: the first refusal, with its line, counted from 1, and its cause; or no memory was left,
/// which says nothing of the file.
#[derive(Clone, Copy, Debug, PartialEq, Eq)]
pub enum ReadFault {
    /// The first refusal.
    At { line: u32, cause: Cause },
    /// No memory was left.
    NoMemory,
}

/// Why one line of a file gives no value: its first refusal; or no memory was left, which says nothing of the line.
#[derive(Clone, Copy, Debug, PartialEq, Eq)]
pub enum LineFault {
    /// The first refusal.
    Refused(Cause),
    /// No memory was left.
    NoMemory,
}

impl From<AllocError> for LineFault {
    ghost use Rattle.moos_text.specs.declared.cause.LineFault.TheVariants.{NoMemory};
    ghost use Rattle.std.specs.Prelude.{◌≡◌};

    ghost from_gives = { λ _ fault. fault ≡ NoMemory };

    fn from(_error: AllocError) -> LineFault {
        LineFault::NoMemory
    }
}

impl From<Cause> for LineFault {
    ghost use Rattle.moos_text.specs.declared.cause.LineFault.TheVariants.{Refused};
    ghost use Rattle.std.specs.Prelude.{◌≡◌};

    ghost from_gives = { λ cause fault. fault ≡ Refused cause };

    fn from(cause: Cause) -> LineFault {
        LineFault::Refused(cause)
    }
}

impl LineFault {
    /// The fault of the file if this is the fault of its line of this number, counted from 1.
    pub fn at(self, line: u32) -> ReadFault
        ensures { result ≡ fault_at line self }
    {
        match self {
            LineFault::Refused(cause) => ReadFault::At { line, cause },
            LineFault::NoMemory => ReadFault::NoMemory,
        }
    }
}

impl Cause {
    /// The cause as it is printed: its letter and number, a space and its name. That of a limit is the limit's.
    pub fn text(&self) -> &'static str
        ensures { result.now ≡ cause_text self.now }
    {
        match self {
            Cause::S1 => "S1 BadStamp",
            Cause::S2 => "S2 StampGoesBack",
            Cause::S3 => "S3 UnknownOp",
            Cause::S4 => "S4 BadName",
            Cause::S5 => "S5 BadValue",
            Cause::S6 => "S6 BadPattern",
            Cause::S7 => "S7 BadInterval",
            Cause::S8(Limit::Clients) => "S8 Clients",
            Cause::S8(Limit::Registrations) => "S8 Registrations",
            Cause::S8(Limit::Variables) => "S8 Variables",
            Cause::S8(Limit::Lines) => "S8 Lines",
            Cause::S8(Limit::Batch) => "S8 Batch",
            Cause::S8(Limit::Text) => "S8 Text",
            Cause::S9 => "S9 HelmName",
            Cause::S10 => "S10 ShareName",
            Cause::S11 => "S11 OwnName",
            Cause::M1 => "M1 BadLine",
            Cause::M2 => "M2 Unclosed",
            Cause::M3 => "M3 BadDomain",
            Cause::M4 => "M4 DomainTooLarge",
            Cause::M5 => "M5 NoDomain",
            Cause::M6 => "M6 BadTick",
            Cause::M7 => "M7 NoBehaviors",
            Cause::M8 => "M8 TooManyTicks",
            Cause::B1 => "B1 BadLine",
            Cause::B2 => "B2 Unclosed",
            Cause::B3 => "B3 UnknownBehavior",
            Cause::B4 => "B4 SameName",
            Cause::B5 => "B5 BadCondition",
            Cause::B6 => "B6 BadParam",
            Cause::B7 => "B7 UnknownParent",
            Cause::B8 => "B8 AmbiguousParent",
            Cause::B9 => "B9 TooMany",
            Cause::B10 => "B10 NoAxis",
            Cause::B11 => "B11 ParamMissing",
            Cause::P1 => "P1 BadLine",
            Cause::P2 => "P2 BadDomain",
            Cause::P3 => "P3 BadBox",
            Cause::P4 => "P4 NotPartition",
            Cause::P5 => "P5 ValueOut",
            Cause::P6 => "P6 BadWeight",
            Cause::P7 => "P7 TooMany",
            Cause::P8 => "P8 NoFunction",
            Cause::P9 => "P9 NoEnd",
            Cause::P10 => "P10 BadPoint",
            Cause::G1 => "G1 BadLine",
            Cause::G2 => "G2 BadPattern",
            Cause::G3 => "G3 BadInterval",
            Cause::G4 => "G4 NameTooLong",
            Cause::G5 => "G5 BadPrefix",
            Cause::G6 => "G6 TooMany",
            Cause::V1 => "V1 BadLine",
            Cause::V2 => "V2 BadNumber",
            Cause::C1 => "C1 BadLine",
            Cause::C2 => "C2 BadNumber",
            Cause::C3 => "C3 BadRanges",
        }
    }
}
