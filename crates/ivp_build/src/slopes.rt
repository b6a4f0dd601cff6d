// How a utility falls with the distance from where it is greatest.
ghost use Rattle.std.specs.Prelude.{◌≡◌, ◌≤◌, ◌<◌};
ghost use Rattle.ivp_build.specs.Shapes.{AreSlopes, fall_in, height_at, shoulder, zone_of};

/// How a utility falls with the distance from where it is greatest: by `fall` at each of the
/// `top` places, then evenly to 0 over the places at the `foot`.
#[derive(Clone, Copy)]
pub(crate) struct Slopes {
    pub max: u64,
    pub fall: u64,
    pub top: u128,
    pub foot: u128,
}

impl Slopes {
    /// What is left at the end of the top.
    fn shoulder(&self) -> u64
        requires { AreSlopes self.now }
        ensures left { result ≡ shoulder self.now }
        ensures most { result ≤ 100000 }
    {
        self.max - (self.fall as u128 * self.top) as u64
    }

    /// The zone of a distance: 0 the top, 1 the foot, 2 beyond.
    pub(crate) fn zone(&self, distance: u64) -> u32
        requires { AreSlopes self.now }
        ensures { result ≡ zone_of self.now distance }
    {
        let distance = distance as u128;
        if distance <= self.top {
            0
        } else if distance <= self.top + self.foot {
            1
        } else {
            2
        }
    }

    /// What is lost at each place of a zone, rounded down.
    pub(crate) fn fall_in(&self, zone: u32) -> u64
        requires { AreSlopes self.now }
        ensures lost { result ≡ fall_in self.now zone }
        ensures most { result ≤ 100000 }
    {
        if zone == 0 {
            self.fall
        } else if zone == 1 {
            (self.shoulder() as u128 / self.foot) as u64
        } else {
            0
        }
    }

    /// The utility at a distance.
    pub(crate) fn height(&self, distance: u64) -> u64
        requires { AreSlopes self.now }
        ensures value { result ≡ height_at self.now distance }
        ensures most { result ≤ 100000 }
    {
        let distance = distance as u128;
        if distance <= self.top {
            self.max - (self.fall as u128 * distance) as u64
        } else if distance <= self.top + self.foot {
            let left = self.shoulder() as u128;
            (left - left / self.foot * (distance - self.top)) as u64
        } else {
            0
        }
    }
}
