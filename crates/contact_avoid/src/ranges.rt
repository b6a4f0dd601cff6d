// The ranges of contacts, as a file sets them.
ghost use Rattle.std.specs.Prelude.{◌≡◌, ◌<◌, ◌^◌, length, Ok, Err, IfOk, IfErr};
ghost use Rattle.moos_text.specs.Lines.{is_unclosed};
ghost use Rattle.moos_text.specs.Pairs.{sides_of};
ghost use Rattle.contact_avoid.specs.RangeFiles.{ordered, ranges_of, usual_ranges, with_range_line, with_range, with_text};

use crate::range_name::{RangeName, distance};
use moos_text::{Cause, ReadFault, cut_at_equals, next_said, read_milli};

/// The ranges of a contact manager, in thousandths of a metre.
#[derive(Clone, Copy, Debug, PartialEq, Eq)]
pub struct Ranges {
    /// A contact outside comes inside if it is no farther away than this.
    pub alert: u32,
    /// A contact inside goes outside if it is farther away than this.
    pub clear: u32,
}

impl Ranges {
    /// Reads a contacts file: the ranges that its bytes stand for, or its first refusal with its line, counted from 1, and
    /// its cause. It takes no memory.
    pub fn read(bytes: &[u8]) -> Result<Ranges, ReadFault>
        requires { length bytes.now < 2 ^ 32 }
        ensures read { IfOk result (λ ranges. ranges_of bytes.now ≡ Ok ranges) }
        ensures refused { IfErr result (λ fault. ranges_of bytes.now ≡ Err fault) }
    {
        let mut ranges = Ranges::usual();
        let mut lines: u32 = 0;
        let mut left = bytes;
        while let Some(said) = next_said(left) {
            lines += 1;
            ranges.read_line(lines, said.text, said.unclosed)?;
            left = said.rest;
        }
        ranges.ordered(lines.max(1))
    }

    // What a file without lines stands for.
    fn usual() -> Ranges
        ensures { result ≡ usual_ranges }
    {
        Ranges {
            alert: 50_000,
            clear: 60_000,
        }
    }

    // Reads one line more, which has this number and says this; nothing if it is blank.
    fn read_line(&mut self, line: u32, text: &[u8], unclosed: bool) -> Result<(), ReadFault>
        requires { unclosed ≡ is_unclosed text.now }
        ensures read { IfOk result (λ _. with_text line self.old text.now ≡ Ok self.new) }
        ensures refused { IfErr result (λ fault. with_text line self.old text.now ≡ Err fault) }
    {
        if text.len() == 0 {
            return Ok(());
        }
        if unclosed {
            return Err(ReadFault::At {
                line,
                cause: Cause::C1,
            });
        }
        match self.read_text(text) {
            Ok(()) => Ok(()),
            Err(cause) => Err(ReadFault::At { line, cause }),
        }
    }

    // The same of a line that says something and leaves no quote open.
    fn read_text(&mut self, text: &[u8]) -> Result<(), Cause>
        ensures read { IfOk result (λ _. with_range_line self.old (sides_of text.now) ≡ Ok self.new) }
        ensures refused { IfErr result (λ cause. with_range_line self.old (sides_of text.now) ≡ Err cause) }
    {
        let Some((name, value)) = cut_at_equals(text) else {
            return Err(Cause::C1);
        };
        let Some(range) = RangeName::named(name) else {
            return Err(Cause::C1);
        };
        let Some(number) = read_milli(value) else {
            return Err(Cause::C2);
        };
        let Some(distance) = distance(number.get()) else {
            return Err(Cause::C2);
        };
        self.set(range, distance);
        Ok(())
    }

    // Gives a range this distance.
    fn set(&mut self, range: RangeName, distance: u32)
        ensures { self.new ≡ with_range self.old range distance }
    {
        match range {
            RangeName::Alert => self.alert = distance,
            RangeName::Clear => self.clear = distance,
        }
    }

    // The same ranges, if a file with this last line may set them.
    fn ordered(self, last: u32) -> Result<Ranges, ReadFault>
        ensures read { IfOk result (λ ranges. ordered last self ≡ Ok ranges) }
        ensures refused { IfErr result (λ fault. ordered last self ≡ Err fault) }
    {
        if self.alert <= self.clear {
            Ok(self)
        } else {
            Err(ReadFault::At {
                line: last,
                cause: Cause::C3,
            })
        }
    }
}
