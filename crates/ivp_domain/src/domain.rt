// A domain: its axes, and the index of each point.
ghost use Rattle.std.specs.Prelude.{◌≡◌, ◌+◌, ◌*◌, ◌^◌, ◌<◌, ◌≤◌, List, ◌++◌, length, take, replicate, Some, IsTrue, IfSome, min, nat_le, slice_get, ◌-◌};
ghost use Rattle.std.specs.List.{list_any};
ghost use Rattle.ivp_domain.specs.Axes.{is_good_axis, no_axis, value_on};
ghost use Rattle.ivp_domain.specs.Boxes.{is_box, volume_of};
ghost use Rattle.ivp_domain.specs.Domains.{bad_axis, domain_of, index_of, is_domain, is_point, points_of, repeated_place, same_name, size_of, size_on, whole};

use crate::axis::{Axis, filler, good_axis, number_at};
use crate::boxes::{BoxN, Point};
use std::marker::Model;

/// The most points that a domain may have: 2^28.
const MOST_POINTS: u64 = 268_435_456;

/// The most axes that a domain may have.
pub const MOST_AXES: usize = 4;

/// Why axes make no domain. A place is the number of an axis, from 0.
#[derive(Clone, Copy, Debug, PartialEq, Eq)]
pub enum DomainFault {
    BadAxis(u32),
    TooLarge,
    SameName(u32),
}

/// The decision space of one to four axes, with at most 2^28 points.
#[derive(Clone, Copy, Debug, PartialEq, Eq)]
pub struct Domain {
    axes: [Axis; MOST_AXES],
    count: u32,
}

impl Model for Domain {
    ghost use Rattle.std.specs.Prelude.{◌≡◌, ◌-◌, List, ◌++◌, length, take, replicate, IsTrue};
    ghost use Rattle.ivp_domain.specs.declared.axis.Axis.{Axis};

    ghost Value = { List Axis };

    ghost use Rattle.ivp_domain.specs.Domains.{is_domain};
    ghost use Rattle.ivp_domain.specs.Axes.{no_axis};
    ghost use Rattle.ivp_domain.specs.Filled.{IsFilled};

    ghost view = { λ d. take d.count d.axes };

    ghost invariant = { λ d. IsTrue (is_domain (take d.count d.axes)) × IsFilled 4 no_axis d.count d.axes };

    ghost inverse = { λ axes. record { axes = axes ++ replicate (4 - length axes) no_axis; count = length axes } };
}

/// The place of the first axis that is not good.
fn bad_axis(axes: &[Axis]) -> Option<usize>
    ensures { result ≡ bad_axis axes.now }
{
    axes.iter().position(|axis| !good_axis(axis))
}

/// Adds a factor to a product, up to one above the most points that a domain may have.
fn times(product: u64, points: u32) -> u64
    requires { product ≤ MOST_POINTS + 1 }
    ensures { result ≡ min (product * points) (MOST_POINTS + 1) }
{
    (product * points as u64).min(MOST_POINTS + 1)
}

/// The four axes of a domain: these, and then such of one point.
fn padded(axes: &[Axis]) -> [Axis; 4]
    requires { length axes.now ≤ 4 }
    ensures { result ≡ axes.now ++ replicate (4 - length axes.now) no_axis }
{
    let mut all = [filler(); 4];
    all[..axes.len()].copy_from_slice(axes);
    all
}

/// How many places these axes make on an axis: one past the last.
fn size_at(axes: &[Axis], axis: usize) -> u32
    ensures { result ≡ size_on axis axes.now }
{
    match axes.get(axis) {
        Some(one) => one.points,
        None => 1,
    }
}

/// At most as many points as a domain may have.
fn few_points(axes: &[Axis]) -> bool
    ensures { result ≡ nat_le (size_of axes.now) (2 ^ 28) }
{
    let one = times(1, size_at(axes, 0));
    let two = times(one, size_at(axes, 1));
    let three = times(two, size_at(axes, 2));
    times(three, size_at(axes, 3)) <= MOST_POINTS
}

/// Two axes have the same name.
fn same_name(a: &Axis, b: &Axis) -> bool
    ensures { result ≡ same_name a.now b.now }
{
    a.name.bytes() == b.name.bytes()
}

/// Whether an axis is named as one of these.
fn is_named_as_one(axes: &[Axis], axis: &Axis) -> bool
    ensures { result ≡ list_any (same_name axis.now) axes.now }
{
    axes.iter().any(|other| same_name(axis, other))
}

/// The place of the first axis that is named as one before it.
fn repeated_place(axes: &[Axis]) -> Option<usize>
    ensures place { result ≡ repeated_place axes.now }
    ensures within { IfSome result (λ place. place < length axes.now) }
{
    for (place, axis) in axes.iter().enumerate() {
        if is_named_as_one(&axes[..place], axis) {
            return Some(place);
        }
    }
    None
}

impl Domain {
    /// The domain of these axes, or the first refusal: `BadAxis` at the first axis with fewer than
    /// two points, ends out of order or an end beyond 10^12 thousandths; `TooLarge` above 2^28
    /// points; `SameName` at the first axis named as an earlier one.
    pub fn make(axes: &[Axis]) -> Result<Domain, DomainFault>
        requires { (0 < length axes.now) × (length axes.now ≤ 4) }
        ensures { result ≡ domain_of axes.now }
    {
        if let Some(place) = bad_axis(axes) {
            return Err(DomainFault::BadAxis(place as u32));
        }
        if !few_points(axes) {
            return Err(DomainFault::TooLarge);
        }
        if let Some(place) = repeated_place(axes) {
            return Err(DomainFault::SameName(place as u32));
        }
        Ok(Domain {
            axes: padded(axes),
            count: axes.len() as u32,
        })
    }

    /// How many axes there are.
    pub fn axes(&self) -> u32
        ensures count { result ≡ length self.now }
        ensures lawful { IsTrue (is_domain self.now) }
    {
        self.count
    }

    /// An axis by its number, from 0.
    pub fn axis(&self, a: u32) -> Axis
        requires { a < length self.now }
        ensures axis { slice_get self.now a ≡ Some result }
        ensures good { IsTrue (is_good_axis result) }
        ensures few { result.points ≤ 2 ^ 28 }
    {
        self.axes[a as usize]
    }

    /// The axes in order.
    pub fn all(&self) -> &[Axis]
        ensures axes { result.now ≡ self.now }
        ensures lawful { IsTrue (is_domain result.now) }
    {
        &self.axes[..self.count as usize]
    }

    /// How many places there are on an axis: one past the last.
    fn size(&self, axis: usize) -> u32
        requires { axis < 4 }
        ensures size { result ≡ size_on axis self.now }
        ensures some { 0 < result }
        ensures lawful { IsTrue (is_domain self.now) }
    {
        size_at(&self.axes[..self.count as usize], axis)
    }

    /// The number of points.
    pub fn points(&self) -> u32
        ensures points { result ≡ length (points_of self.now) }
        ensures product { result ≡ size_of self.now }
        ensures bound { result ≤ 2 ^ 28 }
        ensures volume { result ≡ volume_of (whole self.now) }
        ensures proper { IsTrue (is_box (whole self.now)) }
    {
        self.size(0) * self.size(1) * self.size(2) * self.size(3)
    }

    /// The box of all points.
    pub fn whole(&self) -> BoxN
        ensures whole { result ≡ whole self.now }
        ensures lawful { IsTrue (is_domain self.now) }
    {
        BoxN {
            low: [0; 4],
            high: [
                self.size(0) - 1,
                self.size(1) - 1,
                self.size(2) - 1,
                self.size(3) - 1,
            ],
        }
    }

    /// The number at a place of an axis, in thousandths of the unit: `low + floor(i * (high - low)
    /// / (points - 1))`.
    pub fn value(&self, axis: u32, i: u32) -> i64
        requires axis { axis < length self.now }
        requires place { i < size_on axis self.now }
        ensures { IfSome (slice_get self.now axis) (λ one. result ≡ value_on one i) }
    {
        let one = self.axis(axis);
        number_at(&one, i)
    }

    /// The index of a point: mixed radix, the first axis counting most. It is the place of the
    /// point in the list of all points.
    pub fn index_of(&self, p: &Point) -> u32
        requires { IsTrue (is_point self.now p.now) }
        ensures index { result ≡ index_of self.now p.now }
        ensures listed { slice_get (points_of self.now) result ≡ Some p.now }
    {
        let two = p.at[0] * self.size(1) + p.at[1];
        let three = two * self.size(2) + p.at[2];
        three * self.size(3) + p.at[3]
    }

    /// The point of an index, the inverse of `index_of`.
    pub fn point_at(&self, index: u32) -> Point
        requires { index < length (points_of self.now) }
        ensures listed { slice_get (points_of self.now) index ≡ Some result }
        ensures index { index_of self.now result ≡ index }
        ensures inside { IsTrue (is_point self.now result) }
    {
        let three = index / self.size(3);
        let two = three / self.size(2);
        let one = two / self.size(1);
        Point {
            at: [
                one,
                two % self.size(1),
                three % self.size(2),
                index % self.size(3),
            ],
        }
    }
}
