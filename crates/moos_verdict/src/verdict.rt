// What may be found of a text.

/// What may be found of a text that is judged.
#[derive(Clone, Copy, PartialEq, Eq, Debug)]
pub enum Verdict {
    /// It is the report of a lawful history.
    Accepted,
    /// Its whole lines, so many, begin the report of a lawful history, and there are no more.
    CutOff(u64),
    /// So many lines begin the report of a lawful history, and with the next one they begin none.
    NotLawful(u64),
}
