// The reader of a script that is played beside a vehicle.
ghost use Rattle.std.specs.Prelude.{◌≡◌, ◌<◌, ◌^◌, false, length, Ok, IfOk, IfErr};
ghost use Rattle.std.specs.List.{list_any};
ghost use Rattle.moos_jobs.specs.Simulating.{simulated_script};
ghost use Rattle.moos_simulate.specs.Simulated.{vehicle_names};
ghost use Rattle.moos_text.specs.Refusals.{IsFirst};
ghost use Rattle.script_reader.specs.Named.{has_name};
ghost use Rattle.script_reader.specs.Validity.{IsValid};

use moos_simulate::vehicle_names;
use moos_text::{Cause, ReadFault};
use script_reader::{Script, client_law, line_of_client, read_script};
use std::alloc::Global;

/// Reads a script, none of whose lines may be of a client of the vehicle, whose contacts are watched or not.
pub fn read_simulated(alloc: Global, bytes: &[u8], watched: bool) -> Result<Script, ReadFault>
    requires { length bytes.now < 2 ^ 32 }
    ensures read { IfOk result (λ script. simulated_script watched bytes.now ≡ Ok script) }
    ensures refused { IfErr result (λ fault. IsFirst fault (simulated_script watched bytes.now)) }
    ensures valid { IfOk result IsValid }
    ensures apart { IfOk result (λ script. list_any (has_name (vehicle_names watched)) script.names ≡ false) }
{
    let script = match read_script(alloc, bytes) {
        Ok(script) => script,
        Err(fault) => return Err(fault),
    };
    let Ok(names) = vehicle_names(alloc, watched) else {
        return Err(ReadFault::NoMemory);
    };
    client_law();
    match line_of_client(bytes, &names) {
        None => Ok(script),
        Some(line) => Err(ReadFault::At {
            line,
            cause: Cause::S11,
        }),
    }
}
