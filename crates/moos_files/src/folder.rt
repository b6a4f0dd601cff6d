// Where files are read from.
ghost use Rattle.std.specs.Prelude.{◌≡◌, ◌+◌, ◌^◌, ◌<◌, ℕ, List, Option, false, length, IsErrOf, OnOk, OnErr};
ghost use Rattle.std.specs.Io.{StartsWith, appended_bytes};
ghost use Rattle.moos_files.specs.Files.{Loaded, is_among};
ghost use Rattle.moos_files.specs.Heard.{Hearing, Hears};

use std::alloc::AllocError;

/// Why a load appended nothing.
#[derive(Clone, Copy, PartialEq, Eq, Debug)]
pub enum LoadFault {
    /// The folder failed: the file isn't there, or can't be read.
    Failed,
    /// No memory was left for the content.
    NoMemory,
}

impl From<AllocError> for LoadFault {
    ghost use Rattle.std.specs.Prelude.{◌≡◌};
    ghost use Rattle.moos_files.specs.declared.folder.LoadFault.TheVariants.{NoMemory};

    ghost from_gives = { λ _ fault. fault ≡ NoMemory };

    fn from(_: AllocError) -> LoadFault {
        LoadFault::NoMemory
    }
}

/// Files that are read by name.
pub trait Folder {
    // the bytes that each name holds, if the folder tells them
    ghost told: { Self → Option (List ℕ → Option (List ℕ)) };

    // how many loads failed, a count that stands still at 2^64 - 1, and every load so far: its name, and what was given
    ghost heard: { Self → Hearing };

    // names whose load doesn't fail
    ghost sure: { Self → List (List ℕ) };

    /// Appends the whole content of the named file, fewer than 2^32 bytes, to `into`. After a fault `into` is as
    /// before.
    fn load(&mut self, name: &[u8], into: &mut Vec<u8>) -> Result<(), LoadFault>
        ensures content { OnOk result (Loaded (told self.old) name.now into.old.items into.new.items) }
        ensures short { OnOk result (length into.new.items < length into.old.items + 2 ^ 32) }
        ensures kept { OnErr result (into.new.items ≡ into.old.items) }
        ensures same { told self.new ≡ told self.old }
        ensures same_sure { sure self.new ≡ sure self.old }
        ensures behind { OnOk result (StartsWith into.new.items into.old.items) }
        ensures heard { Hears (heard self.old) (heard self.new) name.now result (appended_bytes into.old.items into.new.items) }
        ensures not_sure { IsErrOf result LoadFault.Failed → is_among (sure self.old) name.now ≡ false };
}
