//! What is mailed to one client: the numbers of the posts that wait for its next fetch.
//!
//! The contract for the layers above: a mailbox is the list that waits, and how many more can be mailed without memory.
//! Memory is taken by `reserve` alone, so that a caller can take it for a whole call before anything changes. What was
//! fetched is forgotten here.
//!
//! `delivery_law` says the delivery rule over again, in sentences about the places of a history.
//!
//! Reading order: `mailbox`, then `law`, the sentences.
#![tactic(auto)]

mod law;
mod mailbox;

pub use law::delivery_law;
pub use mailbox::Mailbox;
use moos_post::List;

/// The numbers of posts, in order.
pub type Numbers = List<u64>;
