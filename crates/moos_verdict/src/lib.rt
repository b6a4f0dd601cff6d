//! What is to be said of a text that may be a report: whether it is the report of a lawful history, and if not, up to which line it
//! begins one.
//!
//! The contract for the layer above: each text gets one verdict at most. A text that is accepted is the report of a lawful history, and
//! no other verdict is given to such a report. What is lawful is so by a schedule, so what may come next is too; and a report goes
//! on with the line of its next entry.
//!
//! Reading order: `specs/Cases` says which texts are reports, `specs/Judged` what a `verdict` says of a text, and `law` what holds of
//! both.
#![tactic(auto)]

mod law;
mod verdict;

pub use law::{asked_law, scheduled_law, verdict_law};
pub use verdict::Verdict;
