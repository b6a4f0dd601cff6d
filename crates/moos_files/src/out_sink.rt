// The standard output, through std. These few lines are trusted to meet the system as it is.
ghost use Rattle.std.specs.Prelude.{◌≡◌, ◌<◌, ◌≤◌, Some, [], length, take, is_ok, if◌then◌else◌, IfOk, OnErr};
ghost use Rattle.moos_files.specs.Answers.{put_of_write};
ghost use Rattle.moos_io.specs.Faults.{Fares, Fell, one_more};
ghost use Rattle.moos_files.specs.Answers.{unsure_faring};
ghost use Rattle.moos_files.specs.OutState.{after_out_put};
ghost use Rattle.moos_io.specs.Pieces.{Took};

use crate::told::TakenBytes;
use moos_io::{Failed, Sink};
use std::io;
use std::marker::Model;

/// The standard output of `host`. Clauses see the bytes that the system said it took. Nothing keeps them when the program runs.
#[derive(Drop)]
pub struct OutSink<'a, H: Print> {
    host: &'a H,
    faults: u64,
    taken: TakenBytes,
}

impl<'a, H: Print> Model for OutSink<'a, H> {
    ghost use Rattle.moos_files.specs.OutState.{OutState};

    ghost Value = { OutState };

    ghost view = { λ sink. record { taken = sink.taken.bytes; faults = sink.faults } };
}

impl<'a, H: Print> OutSink<'a, H> {
    /// The sink over `host`'s standard output, which has taken nothing so far.
    pub fn make(host: &'a H) -> OutSink<'a, H>
        ensures { result ≡ record { taken = []; faults = 0 } }
    {
        OutSink {
            host,
            faults: 0,
            taken: TakenBytes::new(),
        }
    }
}

impl<'a, H: Print> Sink for OutSink<'a, H> {
    ghost taken = { λ sink. Some sink.taken };

    ghost faults = { λ sink. unsure_faring sink.faults };

    // The count rises at each answer that isn't Ok.
    fn put(&mut self, bytes: &[u8]) -> Result<usize, Failed>
        requires { 0 < length bytes.now }
        ensures state { self.new ≡ after_out_put self.old bytes.now result }
        ensures some { IfOk result (λ n. 0 < n) }
        ensures within { IfOk result (λ n. n ≤ length bytes.now) }
        ensures took { IfOk result (λ n. Took (Some self.old.taken) (Some self.new.taken) (take n bytes.now)) }
        ensures none { OnErr result (Some self.new.taken ≡ Some self.old.taken) }
        ensures fares { Fares result (unsure_faring self.old.faults) (unsure_faring self.new.faults) }
        ensures rose { OnErr result (Fell (unsure_faring self.old.faults) (unsure_faring self.new.faults) (Some self.new.taken)) }
    {
        let count = answered(&mut self.faults, self.host.write_some(bytes))?;
        self.taken.note(&bytes[..count]);
        Ok(count)
    }
}

// What a put answers if the system answers a write so. The count rises at each answer that isn't Ok.
fn answered(faults: &mut u64, answer: io::Result<usize>) -> Result<usize, Failed>
    ensures answer { result ≡ put_of_write answer }
    ensures counted { faults.new ≡ (if is_ok result then faults.old else one_more faults.old) }
    ensures later { faults.old ≤ faults.new }
{
    match answer {
        Ok(count) if count > 0 => Ok(count),
        _ => {
            *faults = faults.saturating_add(1);
            Err(Failed)
        }
    }
}
