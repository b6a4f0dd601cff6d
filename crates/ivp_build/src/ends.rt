// Where the zones of a utility end along an axis.
ghost use Rattle.std.specs.Prelude.{◌≡◌, ◌<◌, ◌≤◌, ◌^◌, slice_index, EachIndex};
ghost use Rattle.ivp_build.specs.Shapes.{AreSlopes, IsProfileOf};
ghost use Rattle.ivp_build.specs.Ends.{cut_ends, falling_ends, nine, rising_ends, round_ends};

use crate::crest::Crest;
use crate::profile::Profile;
use crate::slopes::Slopes;

/// The ends of the three zones over the places from `low` to before `until`, if `low` is
/// `away` from the crest and each next place is one farther.
fn falling(slopes: &Slopes, low: u32, away: u32, until: u32) -> [u32; 3]
    requires slopes { AreSlopes slopes.now }
    ensures { result ≡ falling_ends slopes.now low away until }
{
    let top = low as u128 + (slopes.top + 1).saturating_sub(away as u128);
    let foot = low as u128 + (slopes.top + slopes.foot + 1).saturating_sub(away as u128);
    let until = until as u128;
    [top.min(until) as u32, foot.min(until) as u32, until as u32]
}

/// The ends over such places if `until` is `away` from the crest and each place before is one
/// farther.
fn rising(slopes: &Slopes, low: u32, away: u32, until: u32) -> [u32; 3]
    requires slopes { AreSlopes slopes.now }
    ensures { result ≡ rising_ends slopes.now low away until }
{
    let foot = (slopes.top + slopes.foot).saturating_sub(away as u128);
    let top = slopes.top.saturating_sub(away as u128);
    let end = until as u128;
    let low = low as u128;
    [
        end.saturating_sub(foot).max(low) as u32,
        end.saturating_sub(top).max(low) as u32,
        until,
    ]
}

/// Three times three ends in one list.
fn nine(a: [u32; 3], b: [u32; 3], c: [u32; 3]) -> [u32; 9]
    ensures { result ≡ nine a b c }
{
    [a[0], a[1], a[2], b[0], b[1], b[2], c[0], c[1], c[2]]
}

/// The ends round a circle of `count` places.
fn round(slopes: &Slopes, summit: u32, count: u32) -> [u32; 9]
    requires slopes { AreSlopes slopes.now }
    requires few { count ≤ 2 ^ 28 }
    requires summit { summit < count }
    ensures { result ≡ round_ends slopes.now summit count }
{
    let far = summit + count / 2;
    if far < count {
        let left = rising(slopes, 0, 0, summit);
        let right = falling(slopes, summit, 0, far + 1);
        nine(left, right, rising(slopes, far + 1, summit, count))
    } else {
        let right = falling(slopes, 0, count - summit, far + 1 - count);
        let left = rising(slopes, far + 1 - count, 0, summit);
        nine(right, left, falling(slopes, summit, 0, count))
    }
}

/// Where the cuts of a shape along an axis of `count` places end: the places behind them, rising.
/// One that is no greater than the one before it ends no cut.
pub(crate) fn ends(profile: &Profile, count: u32) -> [u32; 9]
    requires few { count ≤ 2 ^ 28 }
    requires profile { IsProfileOf count profile.now }
    ensures ends { result ≡ cut_ends profile.now.slopes count profile.now.crest }
    ensures within { EachIndex result (λ k. slice_index result k ≤ count) }
{
    let slopes = &profile.slopes;
    match profile.crest {
        Crest::At(summit) => {
            let left = rising(slopes, 0, 0, summit);
            nine(left, falling(slopes, summit, 0, count), [count; 3])
        }
        Crest::Round(summit, _) => round(slopes, summit, count),
        Crest::UpTo(last) => nine(falling(slopes, last, 0, count), [count; 3], [count; 3]),
        Crest::From(first) => nine(rising(slopes, 0, 0, first), [count; 3], [count; 3]),
    }
}
