// Polygons: which vertex a behaviour makes for.
ghost use Rattle.std.specs.Prelude.{◌≡◌, ℕ, ◌≤◌, ◌*◌, length, unwrap_or, IfSome, IsTrue, true};
ghost use Rattle.helm_geo.specs.Plane.{is_spot};
ghost use Rattle.helm_geo.specs.Polygons.{are_spots};
ghost use Rattle.bhv_file.specs.Ranges.{InRanges};
ghost use Rattle.bhv_kinds.specs.Targets.{captures_vertex, is_clockwise, is_number, nearer_vertex, nearest_vertex, next_vertex, unless_fresh, vertex_after, vertex_beyond};

use crate::waypoint::{Radii, is_captured, spot_at};
use bhv_file::Shape;
use helm_geo::{Spot, distance_squared, is_left_of};

// Of two vertices the first, unless the second is nearer.
fn nearer_vertex(polygon: &[Spot], here: &Spot, best: usize, other: usize) -> usize
    requires polygon { IsTrue (are_spots polygon.now) }
    requires here { IsTrue (is_spot here.now) }
    ensures vertex { result ≡ nearer_vertex polygon.now here.now best other }
    ensures within { (most : ℕ) → best ≤ most → other ≤ most → result ≤ most }
{
    let nearer = distance_squared(&spot_at(polygon, other), here)
        < distance_squared(&spot_at(polygon, best), here);
    if nearer { other } else { best }
}

// The vertex nearest to a place, and the first of several.
#[tactic(auto, using(crate::proofs::Nearest::nearest_more))]
fn nearest_vertex(polygon: &[Spot], here: &Spot) -> usize
    requires polygon { IsTrue (are_spots polygon.now) }
    requires here { IsTrue (is_spot here.now) }
    ensures vertex { result ≡ nearest_vertex polygon.now here.now }
    ensures within { result ≤ length polygon.now }
{
    let mut best = 0;
    for number in 0..polygon.len() {
        best = nearer_vertex(polygon, here, best, number);
    }
    best
}

// Whether the vertices of a convex polygon run clockwise: the third lies right of the first side.
fn is_clockwise(polygon: &[Spot]) -> bool
    requires { IsTrue (are_spots polygon.now) }
    ensures { result ≡ is_clockwise polygon.now }
{
    match polygon {
        // What lies left of the way back lies right of the side.
        [a, b, c, ..] => is_left_of(b, a, c),
        _ => false,
    }
}

// The vertex after this one, clockwise or the other way.
fn next_vertex(polygon: &[Spot], clockwise: bool, vertex: usize) -> usize
    requires polygon { IsTrue (are_spots polygon.now) }
    requires many { length polygon.now ≤ 64 }
    requires vertex { vertex ≤ 64 }
    ensures vertex { result ≡ next_vertex polygon.now clockwise vertex }
    ensures within { result ≤ 64 }
{
    if clockwise == is_clockwise(polygon) {
        if vertex + 1 < polygon.len() {
            vertex + 1
        } else {
            0
        }
    } else if vertex == 0 {
        polygon.len().saturating_sub(1)
    } else {
        vertex - 1
    }
}

// Whether a vertex is this one.
fn is_number(vertex: usize, old: Option<usize>) -> bool
    ensures { result ≡ is_number vertex old }
{
    match old {
        Some(old) => vertex == old,
        None => false,
    }
}

// Whether a step at a place captures the vertex that it makes for.
#[tactic(auto, using(crate::proofs::Placed::vertices_are))]
fn captures_vertex(
    shape: &Shape,
    vertex: usize,
    old: Option<usize>,
    before: Option<Spot>,
    now: &Spot,
) -> bool
    requires ranges { InRanges true shape.now }
    requires before { IfSome before (λ spot. IsTrue (is_spot spot)) }
    requires now { IsTrue (is_spot now.now) }
    ensures { result ≡ captures_vertex shape.now vertex old before now.now }
{
    let Shape::Loiter {
        polygon,
        capture_radius,
        slip_radius,
        ..
    } = shape
    else {
        return false;
    };
    let same = is_number(vertex, old);
    let radii = Radii {
        capture: *capture_radius,
        slip: *slip_radius,
    };
    is_captured(&radii, &spot_at(polygon.all(), vertex), same, before, now)
}

// The vertex after one that a step makes for: the next, if it is captured.
#[tactic(auto, using(crate::proofs::Placed::vertices_are))]
fn vertex_beyond(shape: &Shape, vertex: usize, captured: bool) -> usize
    requires ranges { InRanges true shape.now }
    requires vertex { vertex ≤ 64 }
    ensures vertex { result ≡ vertex_beyond shape.now vertex captured }
    ensures within { result ≤ 64 }
{
    match shape {
        Shape::Loiter {
            polygon,
            clockwise,
            ..
        } if captured => next_vertex(polygon.all(), *clockwise, vertex),
        _ => vertex,
    }
}

// What was chosen, unless it is to be chosen anew.
fn unless_fresh(fresh: bool, vertex: Option<usize>) -> Option<usize>
    ensures { result ≡ unless_fresh fresh vertex }
{
    if fresh { None } else { vertex }
}

/// The vertex that a loiter behaviour makes for after a step: the one before, or the nearest if it is to be chosen anew, or
/// the next if that is captured.
#[tactic(auto, using(crate::proofs::Placed::vertices_are))]
pub fn vertex_after(
    shape: &Shape,
    old: Option<usize>,
    fresh: bool,
    before: Option<Spot>,
    here: Option<Spot>,
) -> Option<usize>
    requires ranges { InRanges true shape.now }
    requires old { IfSome old (λ vertex. vertex ≤ 64) }
    requires before { IfSome before (λ spot. IsTrue (is_spot spot)) }
    requires here { IfSome here (λ spot. IsTrue (is_spot spot)) }
    ensures vertex { result ≡ vertex_after shape.now old (unless_fresh fresh old) before here }
    ensures within { IfSome result (λ vertex. vertex ≤ 64) }
{
    let chosen = unless_fresh(fresh, old);
    let Shape::Loiter { polygon, .. } = shape else {
        return chosen;
    };
    let Some(now) = here else {
        return chosen;
    };
    let vertex = made_for(polygon.all(), chosen, &now);
    let captured = captures_vertex(shape, vertex, old, before, &now);
    let next = vertex_beyond(shape, vertex, captured);
    Some(next)
}

// The vertex that was chosen, or the nearest if none was.
fn made_for(polygon: &[Spot], chosen: Option<usize>, now: &Spot) -> usize
    requires polygon { IsTrue (are_spots polygon.now) }
    requires many { length polygon.now ≤ 64 }
    requires chosen { IfSome chosen (λ vertex. vertex ≤ 64) }
    requires now { IsTrue (is_spot now.now) }
    ensures vertex { result ≡ unwrap_or chosen (nearest_vertex polygon.now now.now) }
    ensures within { result ≤ 64 }
{
    match chosen {
        Some(vertex) => vertex,
        None => nearest_vertex(polygon, now),
    }
}
