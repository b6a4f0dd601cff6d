// The shape of a utility along an axis, place by place.
ghost use Rattle.std.specs.Prelude.{◌≡◌, ◌<◌, ◌≤◌, ◌≤ℤ◌, pos, neg_ℤ, ◌^◌};
ghost use Rattle.ivp_build.specs.Shapes.{IsProfileOf, change_at, utility_along};

use crate::crest::Crest;
use crate::slopes::Slopes;

/// A shape along an axis: how it falls, and from where.
#[derive(Clone, Copy)]
pub(crate) struct Profile {
    pub slopes: Slopes,
    pub crest: Crest,
}

impl Profile {
    /// The utility at a place of an axis of `count` places.
    pub(crate) fn utility(&self, place: u32, count: u32) -> i64
        requires few { count ≤ 2 ^ 28 }
        requires profile { IsProfileOf count self.now }
        requires place { place < count }
        ensures value { result ≡ pos (utility_along self.now place) }
        ensures least { pos 0 ≤ℤ result }
        ensures most { result ≤ℤ pos 100000 }
    {
        let distance = self.crest.distance(place, count);
        self.slopes.height(distance) as i64
    }

    /// The change from a place to the next of its zone and side.
    pub(crate) fn change(&self, place: u32, count: u32) -> i64
        requires few { count ≤ 2 ^ 28 }
        requires profile { IsProfileOf count self.now }
        requires place { place < count }
        ensures change { result ≡ change_at self.now place }
        ensures most { result ≤ℤ pos 100000 }
        ensures least { neg_ℤ (pos 100000) ≤ℤ result }
    {
        let zone = self.slopes.zone(self.crest.distance(place, count));
        let fall = self.slopes.fall_in(zone) as i64;
        if self.crest.is_right(place, count) {
            -fall
        } else {
            fall
        }
    }
}
