// The job of two scripts with a bridge: its files one after another, and its reports.
ghost use Rattle.std.specs.Prelude.{◌≡◌, None, IfErr, IfOk};
ghost use Rattle.std.specs.List.{All};
ghost use Rattle.command_line.specs.Endings.{Ended, sinking};
ghost use Rattle.command_line.specs.Turns.{Ready};
ghost use Rattle.command_line.specs.declared.status.FileKind.TheVariants.{Bridge as BridgeFile};
ghost use Rattle.moos_jobs.specs.Loading.{file_turn, HasLoaded, HasNotLoaded, WasRead};
ghost use Rattle.moos_jobs.specs.Preparing.{AreGoodToShare};
ghost use Rattle.moos_jobs.specs.Sharing.{community_of, fitting_of, IsWithoutBridge, share_outcomes, share_turn};
ghost use Rattle.moos_share.specs.LongNames.{too_long_line};
ghost use Rattle.moos_share.specs.Validity.{IsRule};

use crate::share_reading::{read_community, read_fitting};
use crate::share_reporting::report_both;
use crate::task::ShareTask;
use command_line::{FileKind, Status, load, refused, unloaded, written};
use moos_bridged::{bridged_law, entries_law, share};
use moos_files::Folder;
use moos_io::{Gate, Sink};
use moos_post::Txt;
use moos_report::reports_law;
use moos_share::Rules;
use script_reader::{Order, Script};
use std::alloc::Global;
use std::sync::Wait;
use std::thread::Threads;

/// Loads and reads the first script, the second one and the bridge, each before the next is loaded.
pub fn load_share<F: Folder>(
    alloc: Global,
    first: &Txt,
    second: &Txt,
    bridge: &Txt,
    order: Order,
    folder: &mut F,
) -> Result<ShareTask, Status>
    ensures good { IfOk result AreGoodToShare }
    ensures loaded { IfOk result (HasLoaded (F.told folder.old) (F.heard folder.old) (F.heard folder.new) (share_turn first.now second.now bridge.now order)) }
    ensures ends { IfErr result (HasNotLoaded (F.told folder.old) (F.sure folder.old) (F.heard folder.old) (F.heard folder.new) (share_turn first.now second.now bridge.now order)) }
    ensures same { (F.told folder.new ≡ F.told folder.old) × (F.sure folder.new ≡ F.sure folder.old) }
{
    let one = match load_community(alloc, FileKind::Script, first, folder) {
        Ok(one) => one,
        Err(status) => return Err(status),
    };
    let two = match load_community(alloc, FileKind::Second, second, folder) {
        Ok(two) => two,
        Err(status) => return Err(status),
    };
    let rules = match load_rules(alloc, &one, bridge, folder) {
        Ok(rules) => rules,
        Err(status) => return Err(status),
    };
    Ok(ShareTask {
        order,
        first: one,
        second: two,
        rules,
    })
}

// Loads and reads the script of this name, which is one of this kind.
fn load_community<F: Folder>(
    alloc: Global,
    kind: FileKind,
    name: &Txt,
    folder: &mut F,
) -> Result<Script, Status>
    ensures without { IfOk result IsWithoutBridge }
    ensures read { IfOk result (WasRead (F.told folder.old) (F.heard folder.old) (F.heard folder.new) name.now community_of) }
    ensures ends { IfErr result (HasNotLoaded (F.told folder.old) (F.sure folder.old) (F.heard folder.old) (F.heard folder.new) (file_turn kind name.now community_of)) }
    ensures same { (F.told folder.new ≡ F.told folder.old) × (F.sure folder.new ≡ F.sure folder.old) }
{
    let bytes = match load(alloc, folder, name.bytes()) {
        Ok(bytes) => bytes,
        Err(fault) => return Err(unloaded(fault)),
    };
    match read_community(alloc, &bytes) {
        Ok(script) => Ok(script),
        Err(fault) => Err(refused(kind, fault)),
    }
}

// Loads and reads the bridge of this name, which carries from the community of this script.
fn load_rules<F: Folder>(
    alloc: Global,
    first: &Script,
    name: &Txt,
    folder: &mut F,
) -> Result<Rules, Status>
    ensures kept { IfOk result (All IsRule) }
    ensures fits { IfOk result (λ rules. too_long_line rules first.now.lines ≡ None) }
    ensures read { IfOk result (WasRead (F.told folder.old) (F.heard folder.old) (F.heard folder.new) name.now (fitting_of first.now)) }
    ensures ends { IfErr result (HasNotLoaded (F.told folder.old) (F.sure folder.old) (F.heard folder.old) (F.heard folder.new) (file_turn BridgeFile name.now (fitting_of first.now))) }
    ensures same { (F.told folder.new ≡ F.told folder.old) × (F.sure folder.new ≡ F.sure folder.old) }
{
    let bytes = match load(alloc, folder, name.bytes()) {
        Ok(bytes) => bytes,
        Err(fault) => return Err(unloaded(fault)),
    };
    match read_fitting(alloc, first, &bytes) {
        Ok(rules) => Ok(rules),
        Err(fault) => Err(refused(FileKind::Bridge, fault)),
    }
}

/// Plays both scripts at once, in their order, with the bridge between their communities, and writes the report of the first community and
/// then that of the second.
pub fn share_scripts<R: Threads + Wait + Sync, K: Sink, G: Gate>(
    rt: &R,
    alloc: Global,
    task: ShareTask,
    out: &mut K,
    gate: &G,
) -> Status
    requires { AreGoodToShare task }
    ensures { Ended share_outcomes (Ready task)
        (sinking (K.taken out.old) (K.taken out.new) (K.faults out.old) (K.faults out.new)) result }
{
    let ShareTask {
        order,
        first,
        second,
        rules,
    } = task;
    bridged_law();
    entries_law();
    reports_law();
    match share(rt, alloc, &first, &second, rules, order, gate) {
        Ok(shared) => written(Status::Done, report_both(alloc, &shared, out)),
        Err(_) => Status::NoMemory,
    }
}
