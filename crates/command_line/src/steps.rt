// The steps of every job: a file is loaded, and refused or not; and what a job writes is put.
ghost use Rattle.std.specs.Prelude.{◌≡◌, ◌<◌, ◌^◌, ◌++◌, ◌∷◌, [], false, length, IfOk, IfErr, OnOk, OnErr};
ghost use Rattle.moos_io.specs.Faults.{Rose};
ghost use Rattle.moos_files.specs.Files.{is_among};
ghost use Rattle.moos_files.specs.Heard.{failed_load, given_load, with_loads};
ghost use Rattle.command_line.specs.Endings.{status_of};
ghost use Rattle.command_line.specs.Turns.{HasBytes};

use crate::status::{FileKind, Refusal, Status};
use moos_files::{Folder, LoadFault};
use moos_io::Failed;
use moos_text::ReadFault;
use std::alloc::Global;

/// Loads the file of this name, whole.
#[tactic(auto, using(crate::proofs::Loading::whole))]
pub fn load<F: Folder>(alloc: Global, folder: &mut F, name: &[u8]) -> Result<Vec<u8>, LoadFault>
    ensures content { IfOk result (λ bytes. HasBytes (F.told folder.old) name.now bytes.items) }
    ensures short { IfOk result (λ bytes. length bytes.items < 2 ^ 32) }
    ensures heard { IfOk result (λ bytes. F.heard folder.new ≡ with_loads (F.heard folder.old) (given_load name.now bytes.items ∷ [])) }
    ensures failed { OnErr result ((F.heard folder.new).loads ≡ (F.heard folder.old).loads ++ failed_load name.now ∷ []) }
    ensures rose { IfErr result (λ fault. fault ≡ LoadFault.Failed → Rose (F.heard folder.old).faults (F.heard folder.new).faults) }
    ensures unsure { IfErr result (λ fault. fault ≡ LoadFault.Failed → is_among (F.sure folder.old) name.now ≡ false) }
    ensures same { (F.told folder.new ≡ F.told folder.old) × (F.sure folder.new ≡ F.sure folder.old) }
{
    let mut bytes = Vec::new(alloc);
    match folder.load(name, &mut bytes) {
        Ok(()) => Ok(bytes),
        Err(fault) => Err(fault),
    }
}

/// The status for a file that couldn't be loaded.
pub fn unloaded(fault: LoadFault) -> Status
    ensures failed { fault ≡ LoadFault.Failed → result ≡ Status.LoadFault }
    ensures memory { fault ≡ LoadFault.NoMemory → result ≡ Status.NoMemory }
{
    match fault {
        LoadFault::Failed => Status::LoadFault,
        LoadFault::NoMemory => Status::NoMemory,
    }
}

/// The status for a file that its reader refuses.
pub fn refused(file: FileKind, fault: ReadFault) -> Status
    ensures { result ≡ status_of file fault }
{
    match fault {
        ReadFault::At { line, cause } => Status::Refused(Refusal { file, line, cause }),
        ReadFault::NoMemory => Status::NoMemory,
    }
}

/// How a run ends that was meant to end so once all was put, or that failed at a put.
pub fn written(meant: Status, put: Result<(), Failed>) -> Status
    ensures all { OnOk put (result ≡ meant) }
    ensures fault { OnErr put (result ≡ Status.WriteFault) }
{
    match put {
        Ok(()) => meant,
        Err(_) => Status::WriteFault,
    }
}
