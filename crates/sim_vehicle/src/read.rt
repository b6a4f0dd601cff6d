// The reader of vehicle files.
ghost use Rattle.std.specs.Prelude.{◌≡◌, ◌<◌, ◌^◌, length, Ok, Err, IfOk, IfErr};
ghost use Rattle.moos_text.specs.Lines.{is_unclosed};
ghost use Rattle.moos_text.specs.Pairs.{sides_of};
ghost use Rattle.sim_vehicle.specs.Vehicles.{set_by_sides, set_by_text, vehicle_of};

use crate::craft::Craft;
use crate::setting::setting_named;
use moos_text::{Cause, ReadFault, cut_at_equals, next_said, read_milli};

impl Craft {
    /// Reads a vehicle file of less than 4 GiB: the vehicle that its bytes stand for, or its first refusal with its line, counted
    /// from 1, and its cause, `V1` or `V2`. It takes no memory, so want of memory is never the fault.
    pub fn read(bytes: &[u8]) -> Result<Craft, ReadFault>
        requires { length bytes.now < 2 ^ 32 }
        ensures read { IfOk result (λ craft. vehicle_of bytes.now ≡ Ok craft) }
        ensures refused { IfErr result (λ fault. vehicle_of bytes.now ≡ Err fault) }
    {
        let mut craft = Craft::with_defaults();
        let mut lines: u32 = 0;
        let mut left = bytes;
        while let Some(said) = next_said(left) {
            lines += 1;
            craft.read_line(lines, said.text, said.unclosed)?;
            left = said.rest;
        }
        Ok(craft)
    }

    // Reads one line more, which has this number and says this, with a quote left open or not; a blank one says nothing.
    fn read_line(&mut self, line: u32, text: &[u8], unclosed: bool) -> Result<(), ReadFault>
        requires { unclosed ≡ is_unclosed text.now }
        ensures read { IfOk result (λ _. set_by_text line self.old text.now ≡ Ok self.new) }
        ensures refused { IfErr result (λ fault. set_by_text line self.old text.now ≡ Err fault) }
    {
        if text.len() == 0 {
            return Ok(());
        }
        if unclosed {
            return Err(ReadFault::At {
                line,
                cause: Cause::V1,
            });
        }
        self.read_text(text)
            .map_err(|cause| ReadFault::At { line, cause })
    }

    // Reads a line `name = value` that leaves no quote open.
    fn read_text(&mut self, text: &[u8]) -> Result<(), Cause>
        ensures read { IfOk result (λ _. set_by_sides self.old (sides_of text.now) ≡ Ok self.new) }
        ensures refused { IfErr result (λ cause. set_by_sides self.old (sides_of text.now) ≡ Err cause) }
    {
        let Some((name, value)) = cut_at_equals(text) else {
            return Err(Cause::V1);
        };
        let Some(setting) = setting_named(name) else {
            return Err(Cause::V1);
        };
        let Some(number) = read_milli(value) else {
            return Err(Cause::V2);
        };
        let number = number.get();
        if !setting.allows(number) {
            return Err(Cause::V2);
        }
        self.set(setting, number);
        Ok(())
    }
}
