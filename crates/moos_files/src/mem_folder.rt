// A folder in memory.
ghost use Rattle.std.specs.Prelude.{◌≡◌, ℕ, List, ◌+◌, ◌^◌, ◌<◌, ◌++◌, ◌∷◌, [], Some, None, false, true, length, IfSome, IsOkUnless, Err, IsErrOf, OnOk, OnErr, MatchOption, find, ◌==◌};
ghost use Rattle.std.specs.List.{list_any};
ghost use Rattle.std.specs.Option.{option_copied};
ghost use Rattle.std.specs.Str.{bytes_eq};
ghost use Rattle.std.specs.Io.{StartsWith, appended_bytes};
ghost use Rattle.moos_files.specs.Heard.{Hears};
ghost use Rattle.moos_files.specs.Loads.{after_load, fails_load, is_marked_load, sure_names};
ghost use Rattle.moos_files.specs.Files.{Loaded, is_among, file_content};

use crate::folder::{Folder, LoadFault};
use crate::told::HeardLoads;
use moos_io::NoMemory;
use std::alloc::Global;
use std::marker::Model;

// A file in memory, shorter than 2^32 bytes.
#[derive(Drop)]
struct MemFile {
    name: Vec<u8>,
    bytes: Vec<u8>,
}

impl Model for MemFile {
    ghost use Rattle.std.specs.Prelude.{◌<◌, ◌^◌, length};
    ghost use Rattle.moos_files.specs.Files.{File};

    ghost Value = { File };

    ghost view = { λ file. record { name = file.name.items; bytes = file.bytes.items } };

    ghost invariant = { λ file. length file.bytes.items < 2 ^ 32 };
}

impl MemFile {
    fn is_named(&self, name: &[u8]) -> bool
        ensures { result ≡ bytes_eq self.now.name name.now }
    {
        self.name.as_slice() == name
    }

    fn bytes(&self) -> &[u8]
        ensures bytes { result.now ≡ self.now.bytes }
        ensures short { length result.now < 2 ^ 32 }
    {
        self.bytes.as_slice()
    }
}

/// Files in memory by name; of several of one name the first counts. It tells what each name holds. Every name that it holds is
/// sure, until a test marks a load that is to fail; from then on none is.
#[derive(Drop)]
pub struct MemFolder {
    files: Vec<MemFile>,
    loads: u64,
    marks: Vec<u64>,
    faults: u64,
    heard: HeardLoads,
}

impl Model for MemFolder {
    ghost use Rattle.moos_files.specs.FolderState.{FolderState};

    ghost Value = { FolderState };

    ghost view = { λ folder. record {
      files = folder.files.items;
      loads = folder.loads;
      marks = folder.marks.items;
      faults = folder.faults;
      heard = folder.heard.loads;
    } };
}

impl MemFolder {
    /// A folder without files.
    pub fn make(alloc: Global) -> MemFolder
        ensures { result ≡ record { files = []; loads = 0; marks = []; faults = 0; heard = [] } }
    {
        MemFolder {
            files: Vec::new(alloc),
            loads: 0,
            marks: Vec::new(alloc),
            faults: 0,
            heard: HeardLoads::new(),
        }
    }

    /// Adds a file behind the others. If memory is wanting, the folder is as before.
    pub fn add(&mut self, alloc: Global, name: &[u8], bytes: &[u8]) -> Result<(), NoMemory>
        requires { length bytes.now < 2 ^ 32 }
        ensures ok { OnOk result (self.new ≡
            record self.old { files = self.old.files ++ record { name = name.now; bytes = bytes.now } ∷ [] }) }
        ensures err { OnErr result (self.new ≡ self.old) }
    {
        let file = MemFile {
            name: name.to_vec(alloc)?,
            bytes: bytes.to_vec(alloc)?,
        };
        self.files.push(file)?;
        Ok(())
    }

    /// Marks the `nth` load, counted from 0, as one that fails. If memory is wanting, the folder is as before.
    pub fn fail_at(&mut self, nth: u64) -> Result<(), NoMemory>
        ensures ok { OnOk result (self.new ≡ record self.old { marks = self.old.marks ++ nth ∷ [] }) }
        ensures err { OnErr result (self.new ≡ self.old) }
    {
        self.marks.push(nth)?;
        Ok(())
    }

    /// The law of a folder without marks, which does nothing: it is sure of each file that it tells.
    #[tactic(auto, using(crate::proofs::Files::present))]
    pub fn sure_law(&self)
        requires { self.now.marks ≡ [] }
        ensures { (name bytes : List ℕ) → file_content self.now.files name ≡ Some bytes → is_among (sure_names self.now) name ≡ true }
    {}

    // This load is marked.
    fn is_marked(&self) -> bool
        ensures { result ≡ is_marked_load self.now }
    {
        is_marked(self.marks.as_slice(), self.loads)
    }
}

impl Folder for MemFolder {
    ghost told = { λ folder. Some (file_content folder.files) };

    ghost heard = { λ folder. record { faults = folder.faults; loads = folder.heard } };

    ghost sure = { λ folder. sure_names folder };

    // Fails exactly if this load is marked, or no file has the name.
    #[tactic(auto, using(crate::proofs::Files::unsure))]
    fn load(&mut self, name: &[u8], into: &mut Vec<u8>) -> Result<(), LoadFault>
        ensures failing { fails_load self.old name.now ≡ true → result ≡ Err LoadFault.Failed }
        ensures good { fails_load self.old name.now ≡ false → IsOkUnless result LoadFault.NoMemory }
        ensures state { self.new ≡ after_load self.old name.now result (appended_bytes into.old.items into.new.items) }
        ensures content { OnOk result
            (Loaded (Some (file_content self.old.files)) name.now into.old.items into.new.items) }
        ensures short { OnOk result (length into.new.items < length into.old.items + 2 ^ 32) }
        ensures kept { OnErr result (into.new.items ≡ into.old.items) }
        ensures same { Some (file_content self.new.files) ≡ Some (file_content self.old.files) }
        ensures same_sure { sure_names self.new ≡ sure_names self.old }
        ensures behind { OnOk result (StartsWith into.new.items into.old.items) }
        ensures heard { Hears (record { faults = self.old.faults; loads = self.old.heard }) (record { faults = self.new.faults; loads = self.new.heard }) name.now result
            (appended_bytes into.old.items into.new.items) }
        ensures not_sure { IsErrOf result LoadFault.Failed → is_among (sure_names self.old) name.now ≡ false }
    {
        let marked = self.is_marked();
        self.loads = self.loads.saturating_add(1);
        match content(self.files.as_slice(), name) {
            Some(bytes) if !marked => {
                if into.extend_from_slice(bytes).is_err() {
                    self.heard.note_failed(name);
                    return Err(LoadFault::NoMemory);
                }
                self.heard.note_given(name, bytes);
                Ok(())
            }
            _ => {
                self.heard.note_failed(name);
                self.faults = self.faults.saturating_add(1);
                Err(LoadFault::Failed)
            }
        }
    }
}

// The content of the first file of that name.
fn content<'a>(files: &'a [MemFile], name: &[u8]) -> Option<&'a [u8]>
    ensures first { MatchOption result (file_content files.now name.now ≡ None)
        (λ bytes. file_content files.now name.now ≡ Some bytes.now) }
    ensures short { IfSome result (λ bytes. length bytes.now < 2 ^ 32) }
{
    match first_of(files, name) {
        Some(file) => Some(file.bytes()),
        None => None,
    }
}

fn first_of<'a>(files: &'a [MemFile], name: &[u8]) -> Option<&'a MemFile>
    ensures { option_copied result ≡ find (λ file. bytes_eq file.name name.now) files.now }
{
    files.iter().find(|file| file.is_named(name))
}

// One of the marks is that number.
fn is_marked(marks: &[u64], nth: u64) -> bool
    ensures { result ≡ list_any (λ mark. mark == nth) marks.now }
{
    marks.iter().any(|mark| *mark == nth)
}
