// The reader of scripts.
ghost use Rattle.std.specs.Prelude.{◌≡◌, ◌<◌, ◌^◌, length, Ok, IfOk, IfErr, OnOk};
ghost use Rattle.moos_text.specs.Refusals.{IsFirst};
ghost use Rattle.script_reader.specs.Script.{nothing_read, progress, script_of};
ghost use Rattle.script_reader.specs.Counts.{AreCounts};
ghost use Rattle.script_reader.specs.Validity.{IsValid};

use crate::reading::ScriptReading;
use crate::script::Script;
use moos_text::{ReadFault, next_line};
use std::alloc::Global;

/// Reads a script: what its bytes stand for, or its first refusal with its line, counted from 1, and its cause.
pub fn read_script(alloc: Global, bytes: &[u8]) -> Result<Script, ReadFault>
    requires { length bytes.now < 2 ^ 32 }
    ensures read { IfOk result (λ script. script_of bytes.now ≡ Ok script) }
    ensures refused { IfErr result (λ fault. IsFirst fault (script_of bytes.now)) }
    ensures valid { IfOk result IsValid }
{
    let mut reading = ScriptReading::new(alloc);
    read_lines(alloc, bytes, &mut reading)?;
    Ok(reading.script)
}

// Reads all lines, of which none was read yet.
fn read_lines(alloc: Global, bytes: &[u8], reading: &mut ScriptReading) -> Result<(), ReadFault>
    requires short { length bytes.now < 2 ^ 32 }
    requires new { progress reading.old.script reading.old.filled ≡ nothing_read }
    requires counted { AreCounts reading.old.script reading.old.made reading.old.variables reading.old.clients }
    ensures read { OnOk result (script_of bytes.now ≡ Ok reading.new.script) }
    ensures refused { IfErr result (λ fault. IsFirst fault (script_of bytes.now)) }
    ensures valid { OnOk result (IsValid reading.new.script) }
{
    let mut from = 0;
    let mut number = 0;
    while from < bytes.len() {
        number += 1;
        let line = next_line(bytes, from);
        let content = &bytes[line.from..line.to];
        if let Err(fault) = reading.read_line(alloc, content, line.unclosed) {
            return Err(fault.at(number));
        }
        from = line.next;
    }
    Ok(())
}
