// Convex polygons, and whether a spot is inside one.
ghost use Rattle.std.specs.Prelude.{◌≡◌, ◌<◌, ◌≤◌, ◌∷◌, [], ◌++◌, length, take, IsTrue, not};
ghost use Rattle.std.specs.List.{list_all};
ghost use Rattle.helm_geo.specs.Plane.{is_left_of, is_spot};
ghost use Rattle.helm_geo.specs.Polygons.{are_spots, at_each_side, convex, has_on_left, has_on_right, inside, is_bent, round_from};

use crate::plane::is_left_of;
use crate::spot::Spot;

/// The fewest vertices of a polygon.
const FEWEST_VERTICES: usize = 3;

/// The most vertices of a polygon.
const MOST_VERTICES: usize = 64;

/// Whether all these spots lie strictly left of the line from `a` to `b`.
fn are_left_of(a: &Spot, b: &Spot, spots: &[Spot]) -> bool
    requires a { IsTrue (is_spot a.now) }
    requires b { IsTrue (is_spot b.now) }
    requires spots { IsTrue (are_spots spots.now) }
    ensures { result ≡ list_all (is_left_of a.now b.now) spots.now }
{
    for p in spots {
        if !is_left_of(a, b, p) {
            return false;
        }
    }
    true
}

/// Whether all these spots, told in two lists, lie strictly on one side of the line from `a` to `b`.
fn are_on_one_side(a: &Spot, b: &Spot, behind: &[Spot], before: &[Spot]) -> bool
    requires a { IsTrue (is_spot a.now) }
    requires b { IsTrue (is_spot b.now) }
    requires behind { IsTrue (are_spots behind.now) }
    requires before { IsTrue (are_spots before.now) }
    ensures { result ≡ is_bent (a.now ∷ b.now ∷ (behind.now ++ before.now)) }
{
    let left = are_left_of(a, b, behind) && are_left_of(a, b, before);
    left || are_left_of(b, a, behind) && are_left_of(b, a, before)
}

/// Whether all vertices other than the ends of the side from the vertex at this place lie strictly on one side of it.
#[tactic(auto, using(crate::proofs::Rounds::spots_before, crate::proofs::Rounds::spots_between))]
fn is_bent(vertices: &[Spot], place: usize) -> bool
    requires place { place < length vertices.now }
    requires many { 2 ≤ length vertices.now }
    requires spots { IsTrue (are_spots vertices.now) }
    ensures { result ≡ is_bent (round_from place vertices.now) }
{
    let from = &vertices[place];
    if place + 1 < vertices.len() {
        are_on_one_side(
            from,
            &vertices[place + 1],
            &vertices[place + 2..],
            &vertices[..place],
        )
    } else {
        are_on_one_side(from, &vertices[0], &vertices[1..place], &vertices[..0])
    }
}

/// Whether these are the vertices, in order, of a convex polygon: 3 to 64 of them, and for each side all other vertices lie
/// strictly on one and the same side of it.
#[tactic(auto, using(crate::proofs::Rounds::side_fails))]
pub fn convex(poly: &[Spot]) -> bool
    requires { IsTrue (are_spots poly.now) }
    ensures { result ≡ convex poly.now }
{
    if poly.len() < FEWEST_VERTICES || poly.len() > MOST_VERTICES {
        return false;
    }
    for place in 0..poly.len() {
        if !is_bent(poly, place) {
            return false;
        }
    }
    true
}

/// The ends of the side from the vertex at this place in the list.
#[tactic(auto, using(crate::proofs::Rounds::ends_inner, crate::proofs::Rounds::ends_last, crate::proofs::Rounds::spot_at))]
fn side(vertices: &[Spot], place: usize) -> (Spot, Spot)
    requires place { place < length vertices.now }
    requires many { 2 ≤ length vertices.now }
    requires spots { IsTrue (are_spots vertices.now) }
    ensures from { IsTrue (is_spot result.0) }
    ensures to { IsTrue (is_spot result.1) }
    ensures ends { take 2 (round_from place vertices.now) ≡ result.0 ∷ result.1 ∷ [] }
{
    if place + 1 < vertices.len() {
        (vertices[place], vertices[place + 1])
    } else {
        (vertices[place], vertices[0])
    }
}

/// Whether a spot lies strictly left of no side.
#[tactic(auto, using(crate::proofs::Rounds::side_fails))]
fn is_left_of_none(vertices: &[Spot], p: &Spot) -> bool
    requires many { 2 ≤ length vertices.now }
    requires spots { IsTrue (are_spots vertices.now) }
    requires p { IsTrue (is_spot p.now) }
    ensures { result ≡ at_each_side (λ side. not (has_on_left p.now side)) vertices.now }
{
    for place in 0..vertices.len() {
        let (from, to) = side(vertices, place);
        if is_left_of(&from, &to, p) {
            return false;
        }
    }
    true
}

/// Whether a spot lies strictly right of no side.
#[tactic(auto, using(crate::proofs::Rounds::side_fails))]
fn is_right_of_none(vertices: &[Spot], p: &Spot) -> bool
    requires many { 2 ≤ length vertices.now }
    requires spots { IsTrue (are_spots vertices.now) }
    requires p { IsTrue (is_spot p.now) }
    ensures { result ≡ at_each_side (λ side. not (has_on_right p.now side)) vertices.now }
{
    for place in 0..vertices.len() {
        let (from, to) = side(vertices, place);
        if is_left_of(&to, &from, p) {
            return false;
        }
    }
    true
}

/// Whether a spot lies inside a convex polygon, its border included.
pub fn inside(poly: &[Spot], p: &Spot) -> bool
    requires convex { IsTrue (convex poly.now) }
    requires spots { IsTrue (are_spots poly.now) }
    requires p { IsTrue (is_spot p.now) }
    ensures { result ≡ inside poly.now p.now }
{
    is_left_of_none(poly, p) || is_right_of_none(poly, p)
}
