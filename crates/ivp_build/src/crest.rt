// Where a utility is greatest along an axis, and how far a place is from there.
ghost use Rattle.std.specs.Prelude.{◌≡◌, ◌<◌, ◌≤◌, ◌^◌};
ghost use Rattle.ivp_build.specs.Shapes.{IsCrestOf, distance_from, is_right};

/// Where a utility is greatest along an axis.
#[derive(Clone, Copy)]
pub(crate) enum Crest {
    /// At one place.
    At(u32),
    /// At one place of a circle of so many.
    Round(u32, u32),
    /// Up to a place.
    UpTo(u32),
    /// From a place on.
    From(u32),
}

impl Crest {
    /// How many places a place is from where the utility is greatest.
    pub(crate) fn distance(&self, place: u32, count: u32) -> u64
        requires few { count ≤ 2 ^ 28 }
        requires crest { IsCrestOf count self.now }
        requires place { place < count }
        ensures { result ≡ distance_from self.now place }
    {
        match *self {
            Crest::At(summit) => summit.abs_diff(place) as u64,
            Crest::Round(summit, places) => {
                let way = summit.abs_diff(place) % places;
                way.min(places - way) as u64
            }
            Crest::UpTo(last) => place.saturating_sub(last) as u64,
            Crest::From(first) => first.saturating_sub(place) as u64,
        }
    }

    /// The place is on the right side, where the utility falls.
    pub(crate) fn is_right(&self, place: u32, count: u32) -> bool
        requires few { count ≤ 2 ^ 28 }
        requires crest { IsCrestOf count self.now }
        requires place { place < count }
        ensures { result ≡ is_right self.now place }
    {
        match *self {
            Crest::At(summit) => summit <= place,
            Crest::Round(summit, places) => (place + places - summit) % places <= places / 2,
            Crest::UpTo(_) => true,
            Crest::From(_) => false,
        }
    }
}
