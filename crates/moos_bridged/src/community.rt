// One of two communities that are played with a bridge between them.
ghost use Rattle.std.specs.Prelude.{◌≡◌, ◌∷◌, ◌<◌, ◌≤◌, [], length, nat_le, IfOk, IsTrue, OnOk};
ghost use Rattle.std.specs.List.{list_all};
ghost use Rattle.moos_bridged.specs.Communities.{bridge_entry, bridge_in, community_history, community_script, GoesOnBy, HasPlayedLines, HasPlayedStamp, is_next, IsResting, IsStampEnd, left_lines, lines_cut, next_line_stamp, StaysAt};
ghost use Rattle.moos_post.specs.declared.entry.Call.TheVariants.{Register};
ghost use Rattle.moos_share.specs.Bridged.{names_bridged};
ghost use Rattle.script_reader.specs.Validity.{IsValid};

use crate::seating::seats_bridged;
use moos_client::Lock;
use moos_db::Db;
use moos_io::Gate;
use moos_post::{Call, Entry, NoMemory, Regs};
use moos_step::{HEAVY, Player, call_alone, has_heavy, play_step};
use script_reader::Script;
use std::alloc::Global;
use std::sync::Wait;
use std::thread::Threads;

/// A community at play: its script, its lock, the seat of its first client, which between two steps has taken in all others, how
/// many calls each of the script's clients has made, and how many of the script's lines were played. The bridge has the number
/// behind the script's clients.
#[derive(Drop)]
pub(crate) struct Community<'a> {
    pub(crate) script: &'a Script,
    pub(crate) lock: Lock,
    pub(crate) first: Player,
    pub(crate) calls: Vec<u64>,
    pub(crate) from: usize,
}

impl<'a> Community<'a> {
    /// A community that has yet to play its first line.
    pub(crate) fn make(alloc: Global, script: &'a Script) -> Result<Community<'a>, NoMemory>
        requires { IsValid script.now }
        ensures resting { IfOk result IsResting }
        ensures script { IfOk result (λ community. community_script community ≡ script.now) }
        ensures new { IfOk result (λ community. community_history community ≡ []) }
        ensures from { IfOk result (λ community. community.from ≡ 0) }
    {
        let (lock, seat, calls) = seats_bridged(alloc, script)?;
        let first = Player {
            seat,
            calls: 0,
            ended: Ok(()),
        };
        Ok(Community {
            script,
            lock,
            first,
            calls,
            from: 0,
        })
    }

    /// The number of the bridge.
    pub(crate) fn bridge(&self) -> u32
        requires { IsResting self.now }
        ensures { result ≡ bridge_in self.now }
    {
        self.script.names.len() as u32
    }

    /// The bridge makes these registrations at stamp 0, while nobody else calls.
    pub(crate) fn register<R: Wait>(
        &mut self,
        rt: &R,
        alloc: Global,
        regs: Regs,
    ) -> Result<(), NoMemory>
        requires { IsResting self.old }
        ensures resting { OnOk result (IsResting self.new) }
        ensures on { OnOk result (GoesOnBy (bridge_entry self.old 0 (Register regs) ∷ []) self.old self.new) }
        ensures stays { OnOk result (StaysAt self.old self.new) }
    {
        let bridge = self.bridge();
        let first = &mut self.first.seat;
        call_alone(
            rt,
            alloc,
            &self.lock,
            first,
            bridge,
            0,
            Call::Register(regs),
        )?;
        Ok(())
    }

    /// The stamp of the next line, if one is left.
    pub(crate) fn next_stamp(&self) -> Option<u64>
        requires { IsResting self.now }
        ensures { result ≡ next_line_stamp (left_lines self.now) }
    {
        let left = &self.script.lines.all()[self.from..];
        match left {
            [] => None,
            [line, ..] => Some(line.stamp),
        }
    }

    /// Whether a client has so many lines of this stamp that it makes its calls there on a thread of its own.
    pub(crate) fn is_heavy(&self, stamp: u64) -> bool
        requires { IsResting self.now }
    {
        let lines = self.script.lines.all();
        let to = stamp_end(lines, self.from, stamp);
        has_heavy(&lines[self.from..to], HEAVY)
    }

    /// The clients make their calls of this stamp. No line of an earlier stamp is left.
    pub(crate) fn play_stamp<R: Threads + Wait + Sync, G: Gate>(
        &mut self,
        rt: &R,
        alloc: Global,
        stamp: u64,
        gate: &G,
    ) -> Result<(), NoMemory>
        requires resting { IsResting self.old }
        requires late { IsTrue (list_all (λ line. nat_le stamp line.stamp) (left_lines self.old)) }
        ensures resting { OnOk result (IsResting self.new) }
        ensures played { OnOk result (HasPlayedStamp stamp self.old self.new) }
    {
        let to = stamp_end(self.script.lines.all(), self.from, stamp);
        if self.from < to {
            self.play_lines(rt, alloc, to, HEAVY, gate)?;
        }
        Ok(())
    }

    /// The clients make their calls among the lines before this place, beside each other if one of them has at least
    /// `heavy` lines.
    pub(crate) fn play_lines<R: Threads + Wait + Sync, G: Gate>(
        &mut self,
        rt: &R,
        alloc: Global,
        to: usize,
        heavy: usize,
        gate: &G,
    ) -> Result<(), NoMemory>
        requires resting { IsResting self.old }
        requires more { self.old.from < to }
        requires within { to ≤ length (community_script self.old).lines }
        ensures resting { OnOk result (IsResting self.new) }
        ensures played { OnOk result (HasPlayedLines (lines_cut self.old.from to (community_script self.old).lines) self.old self.new) }
        ensures to { OnOk result (self.new.from ≡ to) }
    {
        let lines = &self.script.lines.all()[self.from..to];
        let calls = self.calls.as_mut_slice();
        play_step(
            rt,
            alloc,
            &self.lock,
            &mut self.first,
            calls,
            lines,
            heavy,
            gate,
        )?;
        self.from = to;
        Ok(())
    }

    /// The clients make all their calls that are left, beside each other.
    pub(crate) fn play_all<R: Threads + Wait + Sync, G: Gate>(
        &mut self,
        rt: &R,
        alloc: Global,
        gate: &G,
    ) -> Result<(), NoMemory>
        requires resting { IsResting self.old }
        ensures resting { OnOk result (IsResting self.new) }
        ensures played { OnOk result (HasPlayedLines (left_lines self.old) self.old self.new) }
        ensures all { OnOk result (self.new.from ≡ length (community_script self.old).lines) }
    {
        let to = self.script.lines.len();
        if self.from < to {
            self.play_lines(rt, alloc, to, 1, gate)?;
        }
        Ok(())
    }

    /// Ends the run: its database.
    pub(crate) fn close(self) -> Db
        requires { IsResting self }
        ensures names { result.names ≡ names_bridged (community_script self.entry) }
        ensures history { result.history ≡ community_history self.entry }
    {
        let Community {
            script: _,
            lock,
            first,
            calls: _,
            from: _,
        } = self;
        let (db, _) = lock.close(first.seat);
        db
    }
}

// Where the lines end that have this stamp, of those from one place on.
fn stamp_end(lines: &[Entry], from: usize, stamp: u64) -> usize
    requires { from ≤ length lines.now }
    ensures { IsStampEnd stamp from result lines.now }
{
    let mut to = from;
    while is_next(&lines[to..], stamp) {
        to += 1;
    }
    to
}

// Whether the first of these lines has this stamp.
fn is_next(lines: &[Entry], stamp: u64) -> bool
    ensures { result ≡ is_next stamp lines.now }
{
    match lines {
        [] => false,
        [line, ..] => line.stamp == stamp,
    }
}
