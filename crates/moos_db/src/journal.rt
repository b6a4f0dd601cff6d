// The database as the lock sees it: by its history.
use crate::db::Db;
use moos_post::{Entry, Names};
use turn_lock::Journaled;

impl Journaled for Db {
    type Event = Entry;

    type Base = Names;

    ghost base = { λ db. db.names };

    ghost history = { λ db. db.history };

    ghost number = { λ entry. entry.client };
}
