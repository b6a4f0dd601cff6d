// A sink before another one, which gets more bytes at a time.
ghost use Rattle.std.specs.Prelude.{◌≡◌, [], OnOk};
ghost use Rattle.moos_files.specs.Gathered.{all_put};
ghost use Rattle.moos_io.specs.BufferedWriting.{Delivers};

use crate::held_bytes::HeldBytes;
use moos_io::{Failed, Sink};
use std::marker::Model;

/// Gathers the bytes that are put into it, up to 64 KiB, and passes them on to its sink when there is no room for more: so
/// the system gets one piece where it would get a thousand. A direct one gathers nothing. Contracts see its sink and the
/// bytes that it holds. What it has taken is what its sink took and, behind that, what it holds, which
/// [`finish`](GatheringSink::finish) passes on.
#[derive(Drop)]
pub struct GatheringSink<K: Sink + Drop> {
    sink: K,
    held: HeldBytes,
    is_direct: bool,
}

impl<K: Sink + Drop> Model for GatheringSink<K> {
    ghost use Rattle.moos_files.specs.Gathered.{Gathered};

    ghost Value = { Gathered K };

    ghost view = { λ it. record { sink = it.sink; held = it.held } };
}

impl<K: Sink + Drop> GatheringSink<K> {
    /// A sink before this one, which holds nothing so far.
    pub fn make(sink: K, is_direct: bool) -> GatheringSink<K>
        ensures { result ≡ record { sink = sink; held = [] } }
    {
        GatheringSink {
            sink,
            held: HeldBytes::new(),
            is_direct,
        }
    }

    /// Passes on all that it holds. If its sink fails, that took a front of it, and the rest is still held.
    pub fn finish(&mut self) -> Result<(), Failed>
        ensures told { Delivers K.taken K.faults self.old.sink self.new.sink result self.old.held }
        ensures none_held { OnOk result (self.new.held ≡ []) }
        ensures same { all_put K.taken self.new ≡ all_put K.taken self.old }
    {
        while self.held.as_slice().len() > 0 {
            let count = self.sink.put(self.held.as_slice())?;
            self.held.let_go(count);
        }
        Ok(())
    }
}

impl<K: Sink + Drop> Sink for GatheringSink<K> {
    ghost taken = { all_put K.taken };

    ghost faults = { λ it. K.faults it.sink };

    // What doesn't fit behind the rest follows it to the sink, or is held alone.
    fn put(&mut self, bytes: &[u8]) -> Result<usize, Failed> {
        if !self.is_direct && self.held.has_room(bytes) {
            self.held.hold(bytes);
            return Ok(bytes.len());
        }
        self.finish()?;
        if self.is_direct || !self.held.has_room(bytes) {
            return self.sink.put(bytes);
        }
        self.held.hold(bytes);
        Ok(bytes.len())
    }
}
