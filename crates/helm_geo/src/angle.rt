// Sines in ten thousandths, and the direction from one spot to another in whole degrees.
ghost use Rattle.std.specs.Ordering.{int_eq};
ghost use Rattle.std.specs.Prelude.{◌≡◌, ℕ, ◌+◌, ◌*◌, ◌%◌, ◌^◌, ◌<◌, ◌≤◌, false, ◌&&◌, pos, neg_ℤ, ◌*ℤ◌, ◌<ℤ◌, ◌≤ℤ◌, int_lt, if◌then◌else◌, IfSome};
ghost use Rattle.helm_geo.specs.Angles.{along, bearing, cos4, half_sine, sin4};

/// The sines of 0 to 90 degrees in ten-thousandths.
const SINES: [u16; 91] = [
    0, 175, 349, 523, 698, 872, 1045, 1219, 1392, 1564, 1736, 1908, 2079, 2250, 2419, 2588, 2756,
    2924, 3090, 3256, 3420, 3584, 3746, 3907, 4067, 4226, 4384, 4540, 4695, 4848, 5000, 5150, 5299,
    5446, 5592, 5736, 5878, 6018, 6157, 6293, 6428, 6561, 6691, 6820, 6947, 7071, 7193, 7314, 7431,
    7547, 7660, 7771, 7880, 7986, 8090, 8192, 8290, 8387, 8480, 8572, 8660, 8746, 8829, 8910, 8988,
    9063, 9135, 9205, 9272, 9336, 9397, 9455, 9511, 9563, 9613, 9659, 9703, 9744, 9781, 9816, 9848,
    9877, 9903, 9925, 9945, 9962, 9976, 9986, 9994, 9998, 10000,
];

/// The sine of at most 180 degrees, in ten-thousandths.
#[tactic(auto, using(crate::proofs::Bearings::half_sine_most), unfolding(crate::specs::Angles::half_sine, crate::specs::Angles::sines))]
fn half_sine(degree: u16) -> i32
    requires { degree ≤ 180 }
    ensures value { result ≡ pos (half_sine degree) }
    ensures most { half_sine degree ≤ 10000 }
{
    SINES[degree.min(180 - degree) as usize] as i32
}

/// The sine of an angle in whole degrees, in ten-thousandths.
pub fn sin4(degree: u16) -> i32
    requires { degree < 360 }
    ensures value { result ≡ sin4 degree }
    ensures low { neg_ℤ (pos 10000) ≤ℤ result }
    ensures high { result ≤ℤ pos 10000 }
{
    if degree <= 180 {
        half_sine(degree)
    } else {
        -half_sine(degree - 180)
    }
}

/// The cosine of an angle in whole degrees, in ten-thousandths.
pub fn cos4(degree: u16) -> i32
    requires { degree < 360 }
    ensures value { result ≡ cos4 degree }
    ensures low { neg_ℤ (pos 10000) ≤ℤ result }
    ensures high { result ≤ℤ pos 10000 }
{
    sin4((degree + 90) % 360)
}

/// The product of a part of a step and a sine.
fn part(step: i64, sine: i32) -> i64
    requires low_step { neg_ℤ (pos (2 * 10 ^ 12)) ≤ℤ step }
    requires high_step { step ≤ℤ pos (2 * 10 ^ 12) }
    requires low_sine { neg_ℤ (pos 10000) ≤ℤ sine }
    requires high_sine { sine ≤ℤ pos 10000 }
    ensures { result ≡ step *ℤ sine }
{
    step * sine as i64
}

/// How far a step of `dx` east and `dy` north leads along a degree.
fn along(dx: i64, dy: i64, degree: u16) -> i64
    requires degree { degree < 360 }
    requires low_x { neg_ℤ (pos (2 * 10 ^ 12)) ≤ℤ dx }
    requires high_x { dx ≤ℤ pos (2 * 10 ^ 12) }
    requires low_y { neg_ℤ (pos (2 * 10 ^ 12)) ≤ℤ dy }
    requires high_y { dy ≤ℤ pos (2 * 10 ^ 12) }
    ensures { result ≡ along dx dy degree }
{
    part(dx, sin4(degree)) + part(dy, cos4(degree))
}

/// That one of two degrees along which a step leads farther, the first if it leads as far along both.
fn farther(dx: i64, dy: i64, best: u16, degree: u16) -> u16
    requires best { best < 360 }
    requires degree { degree < 360 }
    requires low_x { neg_ℤ (pos (2 * 10 ^ 12)) ≤ℤ dx }
    requires high_x { dx ≤ℤ pos (2 * 10 ^ 12) }
    requires low_y { neg_ℤ (pos (2 * 10 ^ 12)) ≤ℤ dy }
    requires high_y { dy ≤ℤ pos (2 * 10 ^ 12) }
    ensures value { result ≡ (if int_lt (along dx dy best) (along dx dy degree) then degree else best) }
    ensures within { result < 360 }
{
    if along(dx, dy, best) < along(dx, dy, degree) {
        degree
    } else {
        best
    }
}

/// A quarter of the circle, and how far a step leads across and ahead as its first degree sees it.
#[derive(Clone, Copy)]
struct Quarter {
    number: u16,
    across: i64,
    ahead: i64,
}

/// The quarter in which a step leads farthest: it leads ahead of the quarter's first degree, and not against its last.
fn quarter_of(dx: i64, dy: i64) -> Quarter
    requires some { (int_eq dx (pos 0) && int_eq dy (pos 0)) ≡ false }
    requires low_x { neg_ℤ (pos (2 * 10 ^ 12)) ≤ℤ dx }
    requires high_x { dx ≤ℤ pos (2 * 10 ^ 12) }
    requires low_y { neg_ℤ (pos (2 * 10 ^ 12)) ≤ℤ dy }
    requires high_y { dy ≤ℤ pos (2 * 10 ^ 12) }
    ensures number { result.number < 4 }
    ensures across { pos 0 ≤ℤ result.across }
    ensures ahead { pos 0 <ℤ result.ahead }
    ensures high_across { result.across ≤ℤ pos (2 * 10 ^ 12) }
    ensures high_ahead { result.ahead ≤ℤ pos (2 * 10 ^ 12) }
    ensures turned { (degree : ℕ) → degree < 360 → along dx dy ((degree + 90 * result.number) % 360) ≡ along result.across result.ahead degree }
{
    if dx >= 0 && dy > 0 {
        Quarter {
            number: 0,
            across: dx,
            ahead: dy,
        }
    } else if dx > 0 {
        Quarter {
            number: 1,
            across: -dy,
            ahead: dx,
        }
    } else if dy < 0 {
        Quarter {
            number: 2,
            across: -dx,
            ahead: -dy,
        }
    } else {
        Quarter {
            number: 3,
            across: dy,
            ahead: -dx,
        }
    }
}

/// The first of 90 degrees from which a step leads no farther one degree on, or 90. It is sought by halves, since a step
/// leads farther and farther up to there, and nowhere farther behind.
fn turning(across: i64, ahead: i64) -> u16
    requires across { pos 0 ≤ℤ across }
    requires ahead { pos 0 ≤ℤ ahead }
    requires high_across { across ≤ℤ pos (2 * 10 ^ 12) }
    requires high_ahead { ahead ≤ℤ pos (2 * 10 ^ 12) }
    ensures within { result ≤ 90 }
    ensures rises { (degree : ℕ) → degree < result → along across ahead degree <ℤ along across ahead (degree + 1) }
    ensures falls { (degree : ℕ) → result ≤ degree → degree < 90 → along across ahead (degree + 1) ≤ℤ along across ahead degree }
{
    let (mut low, mut high) = (0, 90);
    while low < high {
        let middle = (low + high) / 2;
        if along(across, ahead, middle) < along(across, ahead, middle + 1) {
            low = middle + 1;
        } else {
            high = middle;
        }
    }
    low
}

/// The bearing of a step of `dx` east and `dy` north, in whole degrees clockwise from north: the least degree along which
/// it leads farthest. `None` exactly if the step leads nowhere.
pub fn bearing(dx: i64, dy: i64) -> Option<u16>
    requires low_x { neg_ℤ (pos (2 * 10 ^ 12)) ≤ℤ dx }
    requires high_x { dx ≤ℤ pos (2 * 10 ^ 12) }
    requires low_y { neg_ℤ (pos (2 * 10 ^ 12)) ≤ℤ dy }
    requires high_y { dy ≤ℤ pos (2 * 10 ^ 12) }
    ensures value { result ≡ bearing dx dy }
    ensures within { IfSome result (λ degree. degree < 360) }
    ensures farthest { IfSome result (λ degree. (other : ℕ) → other < 360 → along dx dy other ≤ℤ along dx dy degree) }
    ensures least { IfSome result (λ degree. (other : ℕ) → other < degree → along dx dy other <ℤ along dx dy degree) }
{
    if dx == 0 && dy == 0 {
        return None;
    }
    let quarter = quarter_of(dx, dy);
    let degree = turning(quarter.across, quarter.ahead);
    // The last quarter ends where the first begins: 0 comes first of equals.
    Some(farther(dx, dy, 0, (degree + 90 * quarter.number) % 360))
}
