// The reader of behaviour files.
ghost use Rattle.std.specs.Prelude.{◌≡◌, ◌<◌, ◌^◌, length, Ok, IfOk, IfErr, IsTrue};
ghost use Rattle.moos_text.specs.Refusals.{IsFirst};
ghost use Rattle.bhv_reader.specs.Behaviors.{behaviors_of};
ghost use Rattle.bhv_file.specs.Validity.{IsValidFile, serves};

use crate::reading::{Position, after_line, whole_file};
use bhv_file::{BhvFile, Blocks, Decls, UnusedList};
use ivp_domain::Domain;
use moos_post::Batch;
use moos_text::{ReadFault, next_said};
use std::alloc::Global;

/// Reads a behaviour file over a domain: what its bytes stand for, or its first refusal with its line, counted from 1, and
/// its cause.
pub fn read_behaviors(alloc: Global, bytes: &[u8], domain: &Domain) -> Result<BhvFile, ReadFault>
    requires { length bytes.now < 2 ^ 32 }
    ensures read { IfOk result (λ file. behaviors_of domain.now bytes.now ≡ Ok file) }
    ensures refused { IfErr result (λ fault. IsFirst fault (behaviors_of domain.now bytes.now)) }
    ensures valid { IfOk result IsValidFile }
    ensures served { IfOk result (λ file. IsTrue (serves domain.now file.blocks)) }
{
    let mut file = BhvFile {
        opening: Batch::new(alloc),
        decls: Decls::new(alloc),
        blocks: Blocks::new(alloc),
        unused: UnusedList::new(alloc),
    };
    let mut place = Position::Loose;
    let mut lines: u32 = 0;
    let mut left = bytes;
    while let Some(said) = next_said(left) {
        lines += 1;
        after_line(
            alloc,
            domain,
            &mut file,
            &mut place,
            lines,
            said.text,
            said.unclosed,
        )?;
        left = said.rest;
    }
    whole_file(domain, file, place, lines.max(1))
}
