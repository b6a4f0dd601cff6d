// What a round was.
use crate::helm_client::Iterations;

/// A round that was played.
#[derive(Drop)]
pub struct Round {
    /// The stamp of its lines and of its tick; in order Race the script's last one.
    pub stamp: u64,
    /// The number of its first entry in the history.
    pub from: u64,
    /// What the helm answered at its ticks in this round, in order.
    pub iterations: Iterations,
}
