// What contracts know of a lock and its passes; no value of these types is made.
use std::collections::LinkedList;

/// Where a pass stands with the turns: it waits for none, it waits for the one of its ticket, or it holds one, and the
/// history was this one when the value was lent. No value of it is made.
pub enum Turn<E> {
    Idle,
    Waits(u64),
    Holds(u64, LinkedList<E>),
}

/// The events of a number whose pass was taken in. No value of it is made.
pub struct Met<E> {
    pub number: u32,
    pub events: LinkedList<E>,
}

/// What a pass knows of its lock. No value of it is made: it is there for contracts and proofs alone.
pub struct Known<E, B> {
    pub live: bool,
    pub base: Option<B>,
    pub number: u32,
    pub seen: LinkedList<E>,
    pub told: LinkedList<E>,
    pub mine: LinkedList<E>,
    pub left: u32,
    pub made: u32,
    pub met: LinkedList<Met<E>>,
    pub turn: Turn<E>,
}
