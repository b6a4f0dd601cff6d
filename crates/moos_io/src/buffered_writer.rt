// A writer that gathers text and remembers that its sink failed.
ghost use Rattle.std.specs.Prelude.{◌≡◌, ◌⊎◌, [], true, false, is_err, map, OnOk};
ghost use Rattle.std.specs.List.{concat};
ghost use Rattle.moos_io.specs.BufferedWriting.{Finishes, Writes};

use crate::buffer::Buffer;
use crate::sink::{Failed, Sink};

/// Text on its way to a sink, which gets it some thousands of bytes at a time. Once the sink has failed, nothing more is
/// written: that is remembered, and told at the end. It isn't `Drop`, so whoever makes one has to end it.
pub struct BufferedWriter<'a, K: Sink> {
    out: &'a mut K,
    buffer: Buffer,
    failed: bool,
}

impl<'a, K: Sink> BufferedWriter<'a, K> {
    /// A writer to this sink, which holds nothing.
    pub fn new(out: &'a mut K) -> BufferedWriter<'a, K>
        ensures same { result.out.ghost_name ≡ out.entry.ghost_name }
        ensures now { result.out.now ≡ out.old }
        ensures empty { result.buffer ≡ [] }
        ensures going { result.failed ≡ false }
    {
        BufferedWriter {
            out,
            buffer: Buffer::new(),
            failed: false,
        }
    }

    /// Writes the pieces in order.
    // Inlined, so that a caller's pieces of a known length are copied without a loop.
    #[inline(always)]
    pub fn write(&mut self, pieces: &[&[u8]])
        ensures { Writes K.taken K.faults self.old self.new (concat (map (λ piece. piece.now) pieces.now)) }
    {
        if !self.failed {
            if let Err(_) = self.buffer.write(self.out, pieces) {
                self.failed = true;
            }
        }
    }

    /// Whether the sink failed: then what is written goes nowhere, and needs no work.
    pub fn failed(&self) -> bool
        ensures { result ≡ self.now.failed }
    {
        self.failed
    }

    /// Passes all that it holds on, and tells whether the sink has failed since the writer was made.
    pub fn flush(&mut self) -> Result<(), Failed>
        ensures writes { Writes K.taken K.faults self.old self.new [] }
        ensures empty { OnOk result (self.new.buffer ≡ []) }
        ensures told { self.new.failed ≡ is_err result }
    {
        if self.failed {
            return Err(Failed);
        }
        if let Err(failed) = self.buffer.flush(self.out) {
            self.failed = true;
            return Err(failed);
        }
        Ok(())
    }

    /// Ends the writing: all that it holds is passed on, and the answer is whether the sink took all.
    pub fn finish(self) -> Result<(), Failed>
        ensures { Finishes K.taken K.faults self.entry self.exit.0.now result }
    {
        let BufferedWriter {
            out,
            mut buffer,
            failed,
        } = self;
        if failed {
            return Err(Failed);
        }
        buffer.flush(out)
    }

    /// Lets go of the sink. Nothing is held that the sink could still take.
    pub fn close(self)
        requires { (self.failed ≡ true) ⊎ (self.buffer ≡ []) }
        ensures { self.exit.0.now ≡ self.entry.out.now }
    {
        let BufferedWriter {
            out: _out,
            buffer: _,
            failed: _,
        } = self;
    }
}
