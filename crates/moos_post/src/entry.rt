// The calls of a client, and an entry of the history.
use crate::Regs;
use crate::batch::Batch;
use crate::pattern::Pattern;

/// What a client asks of the database.
#[derive(Debug, Drop)]
pub enum Call {
    /// To be mailed what these registrations select from now on, and the latest posts that they select.
    Register(Regs),
    /// To end the live registration with this pattern for the variable and this one for the source.
    Unregister(Pattern, Pattern),
    /// To post these pairs.
    Post(Batch),
    /// To be given all that was mailed since the client's fetch before.
    Fetch,
}

/// One event of the database: a call, the number of the client that made it, and when, in milliseconds.
#[derive(Debug, Drop)]
pub struct Entry {
    pub stamp: u64,
    pub client: u32,
    pub call: Call,
}
