// What no clause says: that clients with few calls at a stamp make them in the order of the script, also beside one with many.

use crate::plays::{script_in, script_of};
use moos_db::Db;
use moos_io::{Gate, NoGate};
use moos_play::{Order, play};
use std::alloc::Global;
use std::hint::spin_loop;
use std::sync::atomic::{AtomicBool, Ordering};

// Whether the entries of the clients from `first` on are of these clients, in order.
fn are_of(db: &Db, first: u32, clients: &[u32]) -> bool {
    let mut left = clients.iter();
    for k in 0..db.entries() {
        let client = db.entry(k).client;
        if client >= first && left.next() != Some(&client) {
            return false;
        }
    }
    left.next().is_none()
}

#[test]
fn few_calls_in_turn(rt: HostRuntime) {
    const SAID: &str =
        "1 c fetch\n1 a fetch\n1 b fetch\n1 a fetch\n1 c fetch\n1 b fetch\n2 b fetch\n2 c fetch\n";
    let script = script_of(&rt, rt.alloc(), SAID);
    let ran = play(&rt, rt.alloc(), &script, None, Order::Stamp, 1, &NoGate).expect(&rt, "memory");
    assert!(rt; are_of(&ran.db, 0, &[0, 1, 2, 1, 0, 2, 2, 0]));
}

/// Holds client 0 before its first call until client 1 is before one, or lets go after a while.
#[derive(Drop)]
struct Ahead {
    arrived: AtomicBool,
    missed: AtomicBool,
}

impl Gate for Ahead {
    fn at_node(&self, _worker: u32, _nth: u64) {}

    fn at_call(&self, client: u32, nth: u64) {
        if client == 1 {
            self.arrived.store(true, Ordering::SeqCst);
        }
        if client != 0 || nth > 0 {
            return;
        }
        for _ in 0..100_000_000u32 {
            if self.arrived.load(Ordering::SeqCst) {
                return;
            }
            spin_loop();
        }
        self.missed.store(true, Ordering::SeqCst);
    }
}

#[test]
fn few_calls_beside_many(rt: HostRuntime) {
    let mut said = Vec::new(rt.alloc());
    for _ in 0..64u32 {
        said.extend_from_slice(b"1 a fetch\n").expect(&rt, "memory");
    }
    said.extend_from_slice(b"1 b fetch\n1 c fetch\n1 c fetch\n1 b fetch\n")
        .expect(&rt, "memory");
    let script = script_in(&rt, rt.alloc(), said.as_slice());
    let gate = Ahead {
        arrived: AtomicBool::new(false),
        missed: AtomicBool::new(false),
    };
    let ran = play(&rt, rt.alloc(), &script, None, Order::Stamp, 1, &gate).expect(&rt, "memory");
    assert!(rt; !gate.missed.load(Ordering::SeqCst));
    assert!(rt; ran.db.entries() == 68 && are_of(&ran.db, 1, &[1, 2, 2, 1]));
}
