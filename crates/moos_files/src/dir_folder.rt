// The files of the system, through std. These few lines are trusted to meet the system as it is.
ghost use Rattle.std.specs.Prelude.{◌≡◌, ◌+◌, ◌^◌, ◌<◌, ◌≤◌, ◌++◌, [], Err, None, false, length, IfSome, IsErrOf, OnOk, OnErr};
ghost use Rattle.std.specs.Io.{StartsWith, appended_bytes};
ghost use Rattle.std.specs.Str.{IsUtf8};
ghost use Rattle.std.specs.IoError.{error_kind};
ghost use Rattle.moos_files.specs.Answers.{fault_of_kind, load_of_read};
ghost use Rattle.moos_files.specs.DirState.{after_dir_load};
ghost use Rattle.moos_files.specs.Files.{Loaded, is_among};
ghost use Rattle.moos_files.specs.Heard.{Hears};

use crate::folder::{Folder, LoadFault};
use crate::told::HeardLoads;
use std::io::Read;
use std::marker::Model;
use std::rt::Files;
use std::{fs, io, str};

/// The most bytes of a file that a `DirFolder` loads.
pub const MAX_FILE_LEN: usize = 16_777_216;

/// The files that `host` gives. It doesn't tell beforehand what they hold, and is sure of no name. Clauses see each load: its name, and the
/// bytes that the system gave. Nothing keeps them when the program runs. A name that isn't UTF-8, a directory and a file longer than
/// `MAX_FILE_LEN` bytes are faults.
#[derive(Drop)]
pub struct DirFolder<'a, H: Files> {
    host: &'a H,
    faults: u64,
    heard: HeardLoads,
}

impl<'a, H: Files> Model for DirFolder<'a, H> {
    ghost use Rattle.moos_files.specs.Heard.{Hearing};

    ghost Value = { Hearing };

    ghost view = { λ folder. record { faults = folder.faults; loads = folder.heard.loads } };
}

impl<'a, H: Files> DirFolder<'a, H> {
    /// The folder of `host`'s files, of which none was loaded so far.
    pub fn make(host: &'a H) -> DirFolder<'a, H>
        ensures { result ≡ record { faults = 0; loads = [] } }
    {
        DirFolder {
            host,
            faults: 0,
            heard: HeardLoads::new(),
        }
    }
}

impl<'a, H: Files> Folder for DirFolder<'a, H> {
    ghost told = { λ _. None };

    ghost heard = { λ heard. heard };

    ghost sure = { λ _. [] };

    // The count rises at each answer that isn't Ok.
    fn load(&mut self, name: &[u8], into: &mut Vec<u8>) -> Result<(), LoadFault>
        ensures state { self.new ≡ after_dir_load self.old name.now result (appended_bytes into.old.items into.new.items) }
        ensures text { OnOk result (IsUtf8 name.now) }
        ensures not_text { ¬ (IsUtf8 name.now) → result ≡ Err LoadFault.Failed }
        ensures within { OnOk result (length into.new.items ≤ length into.old.items + MAX_FILE_LEN) }
        ensures content { OnOk result (Loaded None name.now into.old.items into.new.items) }
        ensures short { OnOk result (length into.new.items < length into.old.items + 2 ^ 32) }
        ensures kept { OnErr result (into.new.items ≡ into.old.items) }
        ensures behind { OnOk result (StartsWith into.new.items into.old.items) }
        ensures heard { Hears self.old self.new name.now result (appended_bytes into.old.items into.new.items) }
        ensures not_sure { IsErrOf result LoadFault.Failed → is_among [] name.now ≡ false }
    {
        let start = into.len();
        let loaded = append_file(self.host, name, into);
        match loaded {
            Ok(()) => self.heard.note_given(name, &into[start..]),
            Err(_) => {
                self.heard.note_failed(name);
                self.faults = self.faults.saturating_add(1);
            }
        }
        loaded
    }
}

// Appends the content of the named file, or nothing.
fn append_file<H: Files>(host: &H, name: &[u8], into: &mut Vec<u8>) -> Result<(), LoadFault>
    ensures text { OnOk result (IsUtf8 name.now) }
    ensures not_text { ¬ (IsUtf8 name.now) → result ≡ Err LoadFault.Failed }
    ensures within { OnOk result (length into.new.items ≤ length into.old.items + MAX_FILE_LEN) }
    ensures behind { OnOk result (StartsWith into.new.items into.old.items) }
    ensures kept { OnErr result (into.new.items ≡ into.old.items) }
{
    let Ok(path) = str::from_utf8(name) else {
        return Err(LoadFault::Failed);
    };
    match fs::open(host, path) {
        Ok(file) => append_all(file, into),
        Err(error) => Err(fault_of(&error)),
    }
}

// Appends all that the reader gives, up to the limit, or nothing.
fn append_all<R: Read + Drop>(reader: R, into: &mut Vec<u8>) -> Result<(), LoadFault>
    ensures all { OnOk result (IfSome (R.remaining reader) (λ bytes. into.new.items ≡ into.old.items ++ bytes)) }
    ensures within { OnOk result (length into.new.items ≤ length into.old.items + MAX_FILE_LEN) }
    ensures behind { OnOk result (StartsWith into.new.items into.old.items) }
    ensures kept { OnErr result (into.new.items ≡ into.old.items) }
{
    let start = into.len();
    let loaded = load_of_read(reader.take(MAX_FILE_LEN as u64 + 1).read_to_end(into));
    if loaded.is_err() {
        into.truncate(start);
    }
    loaded
}

// What a load answers if the system answers the read of one byte more than the limit so.
fn load_of_read(answer: io::Result<usize>) -> Result<(), LoadFault>
    ensures { result ≡ load_of_read MAX_FILE_LEN answer }
{
    match answer {
        Ok(count) if count <= MAX_FILE_LEN => Ok(()),
        Ok(_) => Err(LoadFault::Failed),
        Err(error) => Err(fault_of(&error)),
    }
}

// Want of memory is told from every other fault.
fn fault_of(error: &io::Error) -> LoadFault
    ensures { result ≡ fault_of_kind (error_kind error.now) }
{
    match error.kind() {
        io::ErrorKind::OutOfMemory => LoadFault::NoMemory,
        _ => LoadFault::Failed,
    }
}
