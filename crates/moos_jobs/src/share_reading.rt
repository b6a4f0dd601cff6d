// The files of the job: scripts without a client of the bridge's name, and rules that make no name too long.
ghost use Rattle.std.specs.Prelude.{◌≡◌, ◌∷◌, ◌<◌, ◌^◌, [], codes, length, IfErr, IfOk, None, Ok};
ghost use Rattle.std.specs.List.{All, list_any};
ghost use Rattle.moos_jobs.specs.Sharing.{community_of, fitting_of, IsWithoutBridge};
ghost use Rattle.moos_share.specs.LongNames.{too_long_line};
ghost use Rattle.moos_share.specs.Validity.{IsRule};
ghost use Rattle.moos_text.specs.Refusals.{IsFirst};
ghost use Rattle.script_reader.specs.Named.{has_name};

use moos_bridged::bridge_name;
use moos_post::{List, Names, NoMemory};
use moos_share::{Rules, read_bridge, too_long};
use moos_text::{Cause, ReadFault};
use script_reader::{Script, client_law, line_of_client, read_script};
use std::alloc::Global;

/// Reads a script of which no line is of a client with the bridge's name: the script, or its first refusal. Its lines are looked
/// through for such a one only if the script has that client.
pub(crate) fn read_community(alloc: Global, bytes: &[u8]) -> Result<Script, ReadFault>
    requires { length bytes.now < 2 ^ 32 }
    ensures read { IfOk result (λ script. community_of bytes.now ≡ Ok script) }
    ensures refused { IfErr result (λ fault. IsFirst fault (community_of bytes.now)) }
    ensures without { IfOk result IsWithoutBridge }
{
    client_law();
    let script = read_script(alloc, bytes)?;
    if !has_bridge(&script) {
        return Ok(script);
    }
    let Ok(names) = bridge_alone(alloc) else {
        return Err(ReadFault::NoMemory);
    };
    match line_of_client(bytes, &names) {
        Some(line) => Err(ReadFault::At {
            line,
            cause: Cause::S10,
        }),
        None => Ok(script),
    }
}

// Whether a client of the script has the bridge's name.
fn has_bridge(script: &Script) -> bool
    ensures { result ≡ list_any (has_name (codes "pShare" ∷ [])) script.now.names }
{
    let bridge = b"pShare".as_slice();
    script.names.all().iter().any(|name| bridge == name.bytes())
}

// The name of the bridge, as a list.
fn bridge_alone(alloc: Global) -> Result<Names, NoMemory>
    ensures { IfOk result (λ names. names ≡ codes "pShare" ∷ []) }
{
    let mut names = List::new(alloc);
    names.add(bridge_name(alloc)?)?;
    Ok(names)
}

/// Reads the rules of a bridge that carries from the community of this script, none of which makes the name of a variable that the
/// script posts too long: the rules, or their first refusal.
pub(crate) fn read_fitting(alloc: Global, first: &Script, bytes: &[u8]) -> Result<Rules, ReadFault>
    requires { length bytes.now < 2 ^ 32 }
    ensures read { IfOk result (λ rules. fitting_of first.now bytes.now ≡ Ok rules) }
    ensures refused { IfErr result (λ fault. IsFirst fault (fitting_of first.now bytes.now)) }
    ensures kept { IfOk result (All IsRule) }
    ensures fits { IfOk result (λ rules. too_long_line rules first.now.lines ≡ None) }
{
    let rules = read_bridge(alloc, bytes)?;
    match too_long(&rules, first) {
        Some(line) => Err(ReadFault::At {
            line,
            cause: Cause::G4,
        }),
        None => Ok(rules),
    }
}
