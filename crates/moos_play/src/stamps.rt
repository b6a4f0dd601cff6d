// Which lines and which tick are next by their stamps.
ghost use Rattle.std.specs.Prelude.{◌≡◌, ◌<◌, ◌≤◌, length, slice_index_or, IfSome};
ghost use Rattle.moos_step.specs.Steps.{EndsStep};
ghost use Rattle.moos_play.specs.Steered.{comes_before, HasOtherStamp, IsDue, tick_due};

use crate::helm_client::HelmClient;
use moos_post::Entry;

/// The stamp of the helm's next tick, if one is left up to this stamp.
pub(crate) fn tick_due(helm_client: &Option<HelmClient>, stop: u64) -> Option<u64>
    requires { IfSome helm_client.now (λ helm. 1 ≤ helm.period) }
    ensures { result ≡ tick_due stop helm_client.now }
{
    match helm_client {
        None => None,
        Some(helm_client) if helm_client.ticks <= stop / helm_client.period => {
            Some(helm_client.ticks * helm_client.period)
        }
        Some(_) => None,
    }
}

/// Where the lines end that are played next, of those from one place on: those of the first one's stamp, or none if the
/// tick has an earlier stamp.
pub(crate) fn due_end(lines: &[Entry], from: usize, tick: Option<u64>) -> usize
    requires { from ≤ length lines.now }
    ensures { IsDue lines.now tick from result }
{
    if from >= lines.len() {
        return from;
    }
    let first = &lines[from];
    if comes_before(tick, first.stamp) {
        return from;
    }
    stamp_end(lines, from, first)
}

// Whether there is a tick and it is before a stamp.
fn comes_before(tick: Option<u64>, stamp: u64) -> bool
    ensures { result ≡ comes_before tick stamp }
{
    match tick {
        None => false,
        Some(tick) => tick < stamp,
    }
}

// Where the lines from `from` on end that have the stamp of the first of them.
fn stamp_end(lines: &[Entry], from: usize, first: &Entry) -> usize
    requires from { from < length lines.now }
    requires first { first.now ≡ slice_index_or lines.now from first.now }
    ensures step { EndsStep lines.now first.now.stamp from result }
    ensures whole { HasOtherStamp lines.now first.now.stamp result }
{
    let stamp = first.stamp;
    let mut to = from + 1;
    while to < lines.len() && lines[to].stamp == stamp {
        to += 1;
    }
    to
}
