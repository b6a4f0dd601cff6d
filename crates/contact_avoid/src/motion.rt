// The utility of a speed and a course by the closest approach of a contact.
ghost use Rattle.std.specs.Prelude.{◌≡◌, ℤ, pos, ◌*◌, ◌^◌, ◌≤◌, ◌<◌, ◌-ℤ◌, ◌*ℤ◌, nat_abs};
ghost use Rattle.std.specs.Int.{int_div_euclid, int_rem_euclid};
ghost use Rattle.helm_geo.specs.Angles.{cos4, sin4};
ghost use Rattle.contact_avoid.specs.Approach.{degree_of, is_far, minus, relative_position, relative_velocity, utility_by, approach_utility, velocity};
ghost use Rattle.contact_avoid.specs.Bounds.{PartsLieWithin, LiesWithin, LiesBetween};

use crate::approach::closest;
use crate::vector::Vector;
use crate::worth::utility_between;
use helm_geo::{Spot, cos4, sin4};

/// Where a contact is and how it moves: its position and its speed in thousandths (of a metre, of a metre a second), and
/// its heading in thousandths of a degree.
#[derive(Clone, Copy, Debug, PartialEq, Eq)]
pub struct Track {
    pub x: i64,
    pub y: i64,
    pub speed: i64,
    pub heading: i64,
}

/// The utility of a speed and a course, in thousandths of 0 to 100, if the own ship is here and the contact there: 0
/// if the closest approach is at most the near distance, and 100,000 if it is at least the far one. Distances and
/// speeds are in thousandths, angles in thousandths of a degree. A contact more than 10,000,000 thousandths away along
/// east or north counts as far.
pub fn approach_utility(
    near: u64,
    far: u64,
    own: Spot,
    contact: Track,
    speed: i64,
    course: i64,
) -> i64
    requires near { near < far }
    requires far { far ≤ 10 ^ 7 }
    requires own_x { LiesWithin (10 ^ 12) own.x }
    requires own_y { LiesWithin (10 ^ 12) own.y }
    requires x { LiesWithin (10 ^ 9) contact.x }
    requires y { LiesWithin (10 ^ 9) contact.y }
    requires contact_speed { LiesBetween (pos 0) (pos 100000) contact.speed }
    requires heading { LiesBetween (pos 0) (pos 360000) contact.heading }
    requires speed { LiesBetween (pos 0) (pos 100000) speed }
    requires course { LiesWithin (10 ^ 12) course }
    ensures { result ≡ pos (approach_utility near far own contact speed course) }
{
    let r = relative_position(own, contact);
    let w = relative_velocity(contact, speed, course);
    utility_by(near, far, r, w)
}

fn relative_position(own: Spot, contact: Track) -> Vector
    requires own_x { LiesWithin (10 ^ 12) own.x }
    requires own_y { LiesWithin (10 ^ 12) own.y }
    requires x { LiesWithin (10 ^ 9) contact.x }
    requires y { LiesWithin (10 ^ 9) contact.y }
    ensures { result ≡ relative_position own contact }
{
    Vector {
        x: from_own(contact.x, own.x),
        y: from_own(contact.y, own.y),
    }
}

// How far the contact is from the own position along an axis.
fn from_own(contact: i64, own: i64) -> i64
    requires contact { LiesWithin (10 ^ 9) contact }
    requires own { LiesWithin (10 ^ 12) own }
    ensures { result ≡ contact -ℤ own }
{
    contact - own
}

fn relative_velocity(contact: Track, speed: i64, course: i64) -> Vector
    requires contact_speed { LiesBetween (pos 0) (pos 100000) contact.speed }
    requires heading { LiesBetween (pos 0) (pos 360000) contact.heading }
    requires speed { LiesBetween (pos 0) (pos 100000) speed }
    requires course { LiesWithin (10 ^ 12) course }
    ensures value { result ≡ relative_velocity contact speed course }
    ensures within { PartsLieWithin (2 * 10 ^ 9) result }
{
    let moves = velocity(contact.speed, degree_of(contact.heading));
    minus(moves, velocity(speed, degree_of(course)))
}

fn minus(a: Vector, b: Vector) -> Vector
    requires a { PartsLieWithin (10 ^ 9) a }
    requires b { PartsLieWithin (10 ^ 9) b }
    ensures value { result ≡ minus a b }
    ensures within { PartsLieWithin (2 * 10 ^ 9) result }
{
    Vector {
        x: less(a.x, b.x),
        y: less(a.y, b.y),
    }
}

fn less(a: i64, b: i64) -> i64
    requires a { LiesWithin (10 ^ 9) a }
    requires b { LiesWithin (10 ^ 9) b }
    ensures value { result ≡ a -ℤ b }
    ensures within { LiesWithin (2 * 10 ^ 9) result }
{
    a - b
}

fn velocity(speed: i64, degree: u16) -> Vector
    requires speed { LiesBetween (pos 0) (pos 100000) speed }
    requires degree { degree < 360 }
    ensures value { result ≡ velocity speed degree }
    ensures within { PartsLieWithin (10 ^ 9) result }
{
    Vector {
        x: part(speed, sin4(degree) as i64),
        y: part(speed, cos4(degree) as i64),
    }
}

// The part of a velocity along an axis, by the sine or cosine of its course.
fn part(speed: i64, sine: i64) -> i64
    requires speed { LiesBetween (pos 0) (pos 100000) speed }
    requires sine { LiesWithin 10000 sine }
    ensures value { result ≡ speed *ℤ sine }
    ensures within { LiesWithin (10 ^ 9) result }
{
    speed * sine
}

fn degree_of(course: i64) -> u16
    requires { LiesWithin (10 ^ 12) course }
    ensures value { result ≡ degree_of course }
    ensures within { result < 360 }
{
    once_around(whole_degrees(course))
}

// An angle in whole degrees, rounded downward.
fn whole_degrees(angle: i64) -> i64
    requires { LiesWithin (10 ^ 12) angle }
    ensures value { result ≡ int_div_euclid angle (pos 1000) }
{
    angle.div_euclid(1000)
}

fn once_around(degrees: i64) -> u16
    ensures value { result ≡ nat_abs (int_rem_euclid degrees (pos 360)) }
    ensures within { result < 360 }
{
    degrees.rem_euclid(360) as u16
}

fn utility_by(near: u64, far: u64, r: Vector, w: Vector) -> i64
    requires near { near < far }
    requires far { far ≤ 10 ^ 7 }
    requires w { PartsLieWithin (2 * 10 ^ 9) w }
    ensures { result ≡ pos (utility_by near far r w) }
{
    if is_far(r) {
        100_000
    } else {
        utility_between(near, far, closest(r, w))
    }
}

fn is_far(r: Vector) -> bool
    ensures { result ≡ is_far r }
{
    !(r.x.unsigned_abs() <= 10_000_000 && r.y.unsigned_abs() <= 10_000_000)
}
