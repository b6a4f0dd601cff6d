// Points and boxes of a domain.
ghost use Rattle.std.specs.Prelude.{◌≡◌, ℕ, ◌+◌, ◌*◌, ◌^◌, ◌<◌, ◌≤◌, ◌↔◌, length, IsTrue, IsNone, IfSome, false, ◌&&◌, Some, slice_get, slice_index};
ghost use Rattle.ivp_domain.specs.Boxes.{common, has_point, is_box, meet_of, points_in, side_of, volume_of};

/// A point: its place on each axis, 0 past the last one.
#[derive(Clone, Copy, Debug, PartialEq, Eq)]
pub struct Point {
    pub at: [u32; 4],
}

/// The points whose place on each axis is from `low` to `high`, both included.
#[derive(Clone, Copy, Debug, PartialEq, Eq)]
pub struct BoxN {
    pub low: [u32; 4],
    pub high: [u32; 4],
}

/// On each axis `low` is at most `high`, so the box has points.
pub fn is_proper(area: &BoxN) -> bool
    ensures { result ≡ is_box area.now }
{
    area.low[0] <= area.high[0]
        && area.low[1] <= area.high[1]
        && area.low[2] <= area.high[2]
        && area.low[3] <= area.high[3]
}

/// From the greater low to the lesser high on each axis.
fn common(a: &BoxN, b: &BoxN) -> BoxN
    ensures { result ≡ common a.now b.now }
{
    BoxN {
        low: [
            a.low[0].max(b.low[0]),
            a.low[1].max(b.low[1]),
            a.low[2].max(b.low[2]),
            a.low[3].max(b.low[3]),
        ],
        high: [
            a.high[0].min(b.high[0]),
            a.high[1].min(b.high[1]),
            a.high[2].min(b.high[2]),
            a.high[3].min(b.high[3]),
        ],
    }
}

/// The common points of two boxes, as a box. `None` exactly if they share none.
pub fn meet(a: &BoxN, b: &BoxN) -> Option<BoxN>
    ensures exact { result ≡ meet_of a.now b.now }
    ensures proper { IfSome result (λ area. IsTrue (is_box area)) }
    ensures shared { IfSome result (λ area. (p : Point) → has_point area p ≡ (has_point a.now p && has_point b.now p)) }
    ensures apart { IsNone result ↔ ((p : Point) → (has_point a.now p && has_point b.now p) ≡ false) }
{
    let area = common(a, b);
    if is_proper(&area) { Some(area) } else { None }
}

/// How many places a box has on an axis.
fn side(area: &BoxN, axis: usize) -> u64
    requires axis { axis < 4 }
    requires proper { slice_index area.now.low axis ≤ slice_index area.now.high axis }
    ensures { result ≡ side_of axis area.now }
{
    (area.high[axis] - area.low[axis]) as u64 + 1
}

/// The number of points of a box.
pub fn volume(b: &BoxN) -> u64
    requires proper { IsTrue (is_box b.now) }
    requires fits { volume_of b.now < 2 ^ 64 }
    ensures sides { result ≡ volume_of b.now }
    ensures points { result ≡ length (points_in b.now) }

    // What is counted are the points that the box has.
    ensures each { (n : ℕ) (p : Point) → slice_get (points_in b.now) n ≡ Some p → IsTrue (has_point b.now p) }
    ensures listed { (p : Point) → length p.at ≡ 4 → IsTrue (has_point b.now p) → (n : ℕ) × (slice_get (points_in b.now) n ≡ Some p) }
{
    side(b, 0) * side(b, 1) * side(b, 2) * side(b, 3)
}
