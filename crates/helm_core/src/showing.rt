// What an iteration shows of one behaviour.
use bhv_kinds::Out;
use bhv_life::Outcome;
use moos_post::{Batch, List, Name};

// What an iteration says of a behaviour.
#[derive(Drop)]
pub(crate) struct TurnShown {
    pub name: Name,
    // Of each of its updates, in order, whether it was good.
    pub taken: List<bool>,
    // What its step gave.
    pub out: Out,
    // Its weight beside the other behaviours, in thousandths.
    pub weight: u32,
    // Whether its function counts.
    pub active: bool,
    // What its turn came to.
    pub outcome: Outcome,
    // The flags that this raises, in order.
    pub flags: Batch,
}
