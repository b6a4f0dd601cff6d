// Letters of a mail.
use moos_post::{List, Post};

/// When a post was made, in milliseconds, and the number of the client that made it.
#[derive(Clone, Copy, Debug, PartialEq, Eq)]
pub struct Origin {
    pub stamp: u64,
    pub client: u32,
}

/// A post that is mailed, with its number: its place among all posts, counted from 0.
#[derive(Debug, Drop)]
pub struct Letter {
    pub number: u64,
    pub post: Post,
}

/// What a fetch gives, in the order in which it was mailed.
pub type Mail = List<Letter>;
