// A script line by line.
ghost use Rattle.std.specs.Prelude.{◌≡◌, ◌<◌, ◌+◌, [], length, Ok, Err, IfOk, OnOk, IfErr, replicate, IsTrue, slice_index};
ghost use Rattle.moos_text.specs.Lines.{first_word, is_unclosed};
ghost use Rattle.moos_text.specs.Refusals.{IsLineFault};
ghost use Rattle.script_reader.specs.Script.{client_number, is_register, client_of, after_stamp, not_before, after_line_words, after_filled, after_line, progress, nothing_read};
ghost use Rattle.script_reader.specs.Counts.{AreCounts, with_made, with_name, with_call, after_call};

use crate::call::call_of;
use crate::numbered::Numbered;
use crate::script::{Lines, Script};
use crate::variables::PostedVariables;
use crate::word::{time_of, with_none_behind};
use moos_post::{Call, Entry, Name, NameFault, Names, NoMemory};
use moos_text::{Cause, Limit, LineFault, split_word};
use std::alloc::Global;

// The most lines that aren't blank, and the most clients.
const MAX_LINES: usize = 100_000;

const MAX_CLIENTS: usize = 64;

/// The script so far, how many of its lines weren't blank, how many registrations each client has made, which variables
/// are posted, and the clients once more, to look them up by their names.
#[derive(Drop)]
pub struct ScriptReading {
    pub script: Script,
    pub filled: usize,
    pub made: [u32; 64],
    pub variables: PostedVariables,
    pub clients: Numbered,
}

impl ScriptReading {
    /// Before the first line.
    pub fn new(alloc: Global) -> ScriptReading
        ensures read { progress result.script result.filled ≡ nothing_read }
        ensures counted { AreCounts result.script result.made result.variables result.clients }
    {
        ScriptReading {
            script: Script {
                names: Names::new(alloc),
                lines: Lines::new(alloc),
                stop: 0,
            },
            filled: 0,
            made: no_registrations(),
            variables: PostedVariables::new(alloc),
            clients: Numbered::new(alloc),
        }
    }

    /// Reads one line more, of which this counts. A blank line says nothing.
    pub fn read_line(
        &mut self,
        alloc: Global,
        content: &[u8],
        unclosed: bool,
    ) -> Result<(), LineFault>
        requires counted { AreCounts self.old.script self.old.made self.old.variables self.old.clients }
        requires quotes { unclosed ≡ is_unclosed content.now }
        ensures read { IfOk result (λ _. after_line (progress self.old.script self.old.filled) content.now (first_word content.now)
            ≡ Ok (progress self.new.script self.new.filled)) }
        ensures refused { IfErr result (λ fault. IsLineFault fault (after_line (progress self.old.script self.old.filled) content.now (first_word content.now))) }
        ensures counted { OnOk result (AreCounts self.new.script self.new.made self.new.variables self.new.clients) }
    {
        let (word, _) = split_word(content);
        match word {
            [] => Ok(()),
            _ => self.read_filled(alloc, content, unclosed),
        }
    }

    // Reads a line that isn't blank.
    fn read_filled(
        &mut self,
        alloc: Global,
        content: &[u8],
        unclosed: bool,
    ) -> Result<(), LineFault>
        requires counted { AreCounts self.old.script self.old.made self.old.variables self.old.clients }
        requires quotes { unclosed ≡ is_unclosed content.now }
        ensures read { IfOk result (λ _. after_filled (progress self.old.script self.old.filled) content.now
            ≡ Ok (progress self.new.script self.new.filled)) }
        ensures refused { IfErr result (λ fault. IsLineFault fault (after_filled (progress self.old.script self.old.filled) content.now)) }
        ensures counted { OnOk result (AreCounts self.new.script self.new.made self.new.variables self.new.clients) }
    {
        if self.filled >= MAX_LINES {
            return Err(LineFault::Refused(Cause::S8(Limit::Lines)));
        }
        if unclosed {
            return Err(LineFault::Refused(Cause::S5));
        }
        self.read_words(alloc, content)?;
        self.filled += 1;
        Ok(())
    }

    fn read_words(&mut self, alloc: Global, text: &[u8]) -> Result<(), LineFault>
        requires { AreCounts self.old.script self.old.made self.old.variables self.old.clients }
        ensures read { IfOk result (λ _. after_line_words self.old.script text.now ≡ Ok self.new.script) }
        ensures refused { IfErr result (λ fault. IsLineFault fault (after_line_words self.old.script text.now)) }
        ensures counted { OnOk result (AreCounts self.new.script self.new.made self.new.variables self.new.clients) }
        ensures same { self.new.filled ≡ self.old.filled }
    {
        let (word, rest) = split_word(text);
        let stamp = time_of(word).ok_or(Cause::S1)?;
        let stamp = not_before(self.script.stop, stamp)?;
        self.read_behind(alloc, rest, stamp)
    }

    // Reads what follows a good stamp.
    fn read_behind(&mut self, alloc: Global, text: &[u8], stamp: u64) -> Result<(), LineFault>
        requires { AreCounts self.old.script self.old.made self.old.variables self.old.clients }
        ensures read { IfOk result (λ _. after_stamp self.old.script text.now stamp ≡ Ok self.new.script) }
        ensures refused { IfErr result (λ fault. IsLineFault fault (after_stamp self.old.script text.now stamp)) }
        ensures counted { OnOk result (AreCounts self.new.script self.new.made self.new.variables self.new.clients) }
        ensures same { self.new.filled ≡ self.old.filled }
    {
        let (word, rest) = split_word(text);
        if word == b"until".as_slice() {
            let (more, _) = split_word(rest);
            with_none_behind((), more)?;
            self.script.stop = stamp;
            return Ok(());
        }
        let number = self.client_of(alloc, word)?;
        self.read_call(alloc, rest, stamp, number)
    }

    // The number of the client of this name, which joins the names if it is new. One that is among them was judged
    // when it joined.
    fn client_of(&mut self, alloc: Global, name: &[u8]) -> Result<usize, LineFault>
        requires { AreCounts self.old.script self.old.made self.old.variables self.old.clients }
        ensures client { IfOk result (λ number. client_of self.old.script.names name.now ≡ Ok number) }
        ensures refused { IfErr result (λ fault. IsLineFault fault (client_of self.old.script.names name.now)) }
        ensures joined { OnOk result (self.new.script ≡ with_name self.old.script name.now) }
        ensures counted { OnOk result (AreCounts self.new.script self.new.made self.new.variables self.new.clients) }
        ensures same { self.new.filled ≡ self.old.filled }
    {
        match self.clients.number_of(name) {
            Some(number) => Ok(number),
            None => self.join(alloc, name),
        }
    }

    // The number of the client of this name, which is new and joins the names.
    fn join(&mut self, alloc: Global, name: &[u8]) -> Result<usize, LineFault>
        requires counted { AreCounts self.old.script self.old.made self.old.variables self.old.clients }
        requires new { client_number self.old.script.names name.now ≡ length self.old.script.names }
        ensures client { IfOk result (λ number. client_of self.old.script.names name.now ≡ Ok number) }
        ensures refused { IfErr result (λ fault. IsLineFault fault (client_of self.old.script.names name.now)) }
        ensures joined { OnOk result (self.new.script ≡ with_name self.old.script name.now) }
        ensures counted { OnOk result (AreCounts self.new.script self.new.made self.new.variables self.new.clients) }
        ensures same { self.new.filled ≡ self.old.filled }
    {
        let number = self.script.names.len();
        let client = new_client(alloc, &self.script.names, name)?;
        self.clients.join(alloc, name)?;
        match self.script.names.push(client) {
            Ok(()) => Ok(number),
            Err(_) => Err(LineFault::NoMemory),
        }
    }

    // Reads the call of the client of this number.
    fn read_call(
        &mut self,
        alloc: Global,
        text: &[u8],
        stamp: u64,
        number: usize,
    ) -> Result<(), LineFault>
        requires counted { AreCounts self.old.script self.old.made self.old.variables self.old.clients }
        requires among { number < 64 }
        ensures read { IfOk result (λ _. after_call self.old.script stamp text.now number ≡ Ok self.new.script) }
        ensures refused { IfErr result (λ fault. IsLineFault fault (after_call self.old.script stamp text.now number)) }
        ensures counted { OnOk result (AreCounts self.new.script self.new.made self.new.variables self.new.clients) }
        ensures same { self.new.filled ≡ self.old.filled }
    {
        let call = call_of(alloc, self.made[number], &mut self.variables, text)?;
        count(&mut self.made, number, &call);
        add_call(&mut self.script, stamp, number, call)?;
        Ok(())
    }
}

fn no_registrations() -> [u32; 64]
    ensures { result ≡ replicate 64 0 }
{
    [0; 64]
}

// Counts the call if it is a registration of the client of this number.
fn count(made: &mut [u32; 64], number: usize, call: &Call)
    requires among { number < 64 }
    requires room { IsTrue (is_register call.now) → slice_index made.old number < 256 }
    ensures { made.new ≡ with_made made.old number call.now }
{
    match call {
        Call::Register(_) => made[number] += 1,
        _ => {}
    }
}

// A stamp isn't below that of an earlier line.
fn not_before(last: u64, stamp: u64) -> Result<u64, Cause>
    ensures { result ≡ not_before last stamp }
{
    if stamp < last {
        Err(Cause::S2)
    } else {
        Ok(stamp)
    }
}

// The name of a client that isn't among these, if it may join them.
fn new_client(alloc: Global, names: &Names, name: &[u8]) -> Result<Name, LineFault>
    requires new { client_number names.now name.now ≡ length names.now }
    ensures name { IfOk result (λ client. client ≡ name.now) }
    ensures client { OnOk result (client_of names.now name.now ≡ Ok (length names.now)) }
    ensures refused { IfErr result (λ fault. IsLineFault fault (client_of names.now name.now)) }
{
    let client = match Name::new(alloc, name) {
        Ok(client) => client,
        Err(NameFault::BadName) => return Err(LineFault::Refused(Cause::S4)),
        Err(NameFault::NoMemory) => return Err(LineFault::NoMemory),
    };
    if name == b"pHelmIvP".as_slice() {
        return Err(LineFault::Refused(Cause::S9));
    }
    if names.len() >= MAX_CLIENTS {
        return Err(LineFault::Refused(Cause::S8(Limit::Clients)));
    }
    Ok(client)
}

// Adds a call of the client of this number.
fn add_call(script: &mut Script, stamp: u64, number: usize, call: Call) -> Result<(), NoMemory>
    requires { number < 64 }
    ensures { OnOk result (script.new ≡ with_call script.old stamp number call) }
{
    let line = Entry {
        stamp,
        client: number as u32,
        call,
    };
    script.lines.add(line)?;
    script.stop = stamp;
    Ok(())
}
