// A node of the tree of areas, and its children.
ghost use Rattle.std.specs.Prelude.{◌≡◌, ℕ, ◌+◌, ◌*◌, ◌^◌, ◌<◌, ◌≤◌, ◌↔◌, pos, neg_ℤ, ◌*ℤ◌, ◌≤ℤ◌, length, Some, None, IsTrue, IsNone, IfSome, IfNone, false, ◌&&◌, slice_get, slice_index, take};
ghost use Rattle.ivp_domain.specs.Boxes.{has_point, is_box};
ghost use Rattle.ivp_domain.specs.Domains.{is_point};
ghost use Rattle.ivp_func.specs.Pieces.{is_small};
ghost use Rattle.ivp_problem.specs.Problems.{is_weight};
ghost use Rattle.ivp_problem.specs.Keys.{AtMost};
ghost use Rattle.ivp_problem.specs.Sums.{key_at, weighted_sum};
ghost use Rattle.ivp_problem.specs.Corners.{Beats, IsSmall};
ghost use Rattle.ivp_problem.specs.Trees.{bound_of, child_of, chosen_at, IsNode, next_of, root_of, slope_at, slope_with, with_chosen};

use crate::key::{Key, key_of};
use crate::problem::{Problem, problem_law};
use ivp_domain::{BoxN, Point, Steps, meet};
use ivp_func::Piece;
use std::sync::ledger::Ledger;

/// A choice of one piece from each of the first `depth` functions: the common box of the pieces, and
/// the sums of weight times base and of weight times slope.
#[derive(Clone, Copy, Debug, PartialEq, Eq)]
pub struct Node {
    pub depth: u32,
    pub area: BoxN,
    pub base: i128,
    pub slope: [i64; 4],
}

/// A child of a node, with the number of the piece that it chooses.
#[derive(Clone, Copy, Debug, PartialEq, Eq)]
pub struct NumberedChild {
    pub piece: u32,
    pub node: Node,
}

/// The slope along an axis with that of a weighted piece added.
fn slope_with(weight: u32, piece: &Piece, node: &Node, axis: usize) -> i64
    requires axis { axis < 4 }
    requires weight { IsTrue (is_weight weight) }
    requires piece { IsTrue (is_small piece.now) }
    requires node { IsSmall 63 node.now }
    ensures { result ≡ slope_with weight piece.now node.now axis }
{
    node.slope[axis] + weight as i64 * piece.slope[axis]
}

/// A node with one more piece chosen, which leaves this box.
fn with_chosen(weight: u32, piece: &Piece, node: &Node, area: BoxN) -> Node
    requires weight { IsTrue (is_weight weight) }
    requires piece { IsTrue (is_small piece.now) }
    requires node { IsSmall 63 node.now }
    requires depth { node.now.depth < 64 }
    ensures { result ≡ with_chosen weight piece.now node.now area }
{
    Node {
        depth: node.depth + 1,
        area,
        base: node.base + weight as i128 * piece.base as i128,
        slope: [
            slope_with(weight, piece, node, 0),
            slope_with(weight, piece, node, 1),
            slope_with(weight, piece, node, 2),
            slope_with(weight, piece, node, 3),
        ],
    }
}

/// The place of a box on an axis where the chosen pieces add most, and the least such: the high end
/// if the slope is above 0, else the low end.
fn high_place(node: &Node, axis: usize) -> u32
    requires axis { axis < 4 }
    requires some { slice_index node.now.area.low axis ≤ slice_index node.now.area.high axis }
    ensures low { slice_index node.now.area.low axis ≤ result }
    ensures high { result ≤ slice_index node.now.area.high axis }
    ensures most { (x : ℕ) → slice_index node.now.area.low axis ≤ x → x ≤ slice_index node.now.area.high axis → Beats (slope_at node.now axis) result x }
{
    if node.slope[axis] > 0 {
        node.area.high[axis]
    } else {
        node.area.low[axis]
    }
}

/// The corner of the box where the chosen pieces add most.
fn high_corner(node: &Node) -> Point
    requires { IsTrue (is_box node.now.area) }
    ensures inside { IsTrue (has_point node.now.area result) }
    ensures most { (k : ℕ) (x : ℕ) → k < 4 → slice_index node.now.area.low k ≤ x → x ≤ slice_index node.now.area.high k → Beats (slope_at node.now k) (slice_index result.at k) x }
{
    let one = high_place(node, 0);
    let two = high_place(node, 1);
    let three = high_place(node, 2);
    let four = high_place(node, 3);
    Point {
        at: [one, two, three, four],
    }
}

/// What an axis adds for the chosen pieces at a point: slope times place.
fn rise(node: &Node, point: &Point, axis: usize) -> i128
    requires axis { axis < 4 }
    requires node { IsSmall 64 node.now }
    requires place { slice_index point.now.at axis < 2 ^ 28 }
    ensures rise { result ≡ (slope_at node.now axis *ℤ pos (slice_index point.now.at axis)) }
    ensures above { neg_ℤ (pos (64 * 10 ^ 12 * 2 ^ 28)) ≤ℤ result }
    ensures below { result ≤ℤ pos (64 * 10 ^ 12 * 2 ^ 28) }
{
    node.slope[axis] as i128 * point.at[axis] as i128
}

/// What the chosen pieces add at a point of the box.
fn chosen(node: &Node, point: &Point) -> i128
    requires node { IsSmall 64 node.now }
    requires places { (k : ℕ) → k < 4 → slice_index point.now.at k < 2 ^ 28 }
    ensures { result ≡ chosen_at node.now point.now }
{
    node.base
        + rise(node, point, 0)
        + rise(node, point, 1)
        + rise(node, point, 2)
        + rise(node, point, 3)
}

impl Problem {
    /// The root of the tree: no piece chosen, and the whole domain.
    pub fn root(&self) -> Node
        ensures root { result ≡ root_of self.now }
        ensures node { IsNode self.now result }
        ensures whole { (p : Point) → has_point result.area p ≡ is_point self.now.axes p }
    {
        Node {
            depth: 0,
            area: self.lent_domain().whole(),
            base: 0,
            slope: [0; 4],
        }
    }

    /// The child of a node that chooses the piece of this number of function number `depth`. `None`
    /// exactly if the node and that piece share no point.
    pub fn child(&self, node: &Node, piece: u32) -> Option<Node>
        requires node { IsNode self.now node.now }
        requires depth { node.now.depth < length self.now.terms }
        requires piece { IfSome (next_of self.now node.now) (λ term. piece < length term.func.pieces) }
        ensures child { result ≡ child_of self.now node.now piece }
        ensures node { IfSome result (IsNode self.now) }
        ensures none { IfSome (next_of self.now node.now) (λ term. IfSome (slice_get term.func.pieces piece) (λ chosen. IsNone result ↔ ((p : Point) → (has_point node.now.area p && has_point chosen.area p) ≡ false))) }
    {
        problem_law(self);
        let weight = self.weight(node.depth);
        let piece = self.func(node.depth).piece(piece);
        match meet(&node.area, &piece.area) {
            Some(area) => Some(with_chosen(weight, &piece, node, area)),
            None => None,
        }
    }

    /// The child by the least piece number from `from` on that shares a point with the node. `None`
    /// exactly if there is none.
    pub fn next_child(&self, node: &Node, from: u32) -> Option<NumberedChild>
        requires node { IsNode self.now node.now }
        requires depth { node.now.depth < length self.now.terms }
        ensures child { IfSome result (λ next. child_of self.now node.now next.piece ≡ Some next.node) }
        ensures node { IfSome result (λ next. IsNode self.now next.node) }
        ensures piece { IfSome result (λ next. (from ≤ next.piece) × (next.piece < 4096)) }
        ensures least { IfSome result (λ next. (other : ℕ) → from ≤ other → other < next.piece → child_of self.now node.now other ≡ None) }
        ensures none { IfNone result ((other : ℕ) → from ≤ other → child_of self.now node.now other ≡ None) }
    {
        problem_law(self);
        let piece = self.func(node.depth).next_meet(&node.area, from)?;
        let node = self.child(node, piece)?;
        Some(NumberedChild { piece, node })
    }

    /// The sum of the chosen functions at a point of a node.
    fn chosen_sum(&self, node: &Node, point: &Point) -> u64
        requires node { IsNode self.now node.now }
        requires point { IsTrue (has_point node.now.area point.now) }
        ensures sum { result ≡ weighted_sum (take node.now.depth self.now.terms) point.now }
        ensures range { result ≤ 10 ^ 12 * node.now.depth }
    {
        problem_law(self);
        chosen(node, point) as u64
    }

    /// The bound of a node.
    fn bound_key(&self, node: &Node) -> Key
        requires { IsNode self.now node.now }
        ensures bound { result ≡ bound_of self.now node.now }
        ensures above { (p : Point) → IsTrue (has_point node.now.area p) → AtMost (key_at self.now p) result }
    {
        let len = self.len();
        let domain = self.lent_domain();
        let corner = high_corner(node);
        let most = self.chosen_sum(node, &corner);
        if node.depth < len {
            let first = Point { at: node.area.low };
            key_of(most + self.tops_from(node.depth), domain.index_of(&first))
        } else {
            key_of(most, domain.index_of(&corner))
        }
    }

    /// The best point of a node of full depth: the one of greatest key in its box.
    pub fn best_corner(&self, node: &Node) -> Point
        requires node { IsNode self.now node.now }
        requires full { length self.now.terms ≤ node.now.depth }
        ensures inside { IsTrue (has_point node.now.area result) }
        ensures point { IsTrue (is_point self.now.axes result) }
        ensures best { key_at self.now result ≡ bound_of self.now node.now }
    {
        problem_law(self);
        high_corner(node)
    }

    /// The bound of a node: no key of a point in the node is above it. Below full depth it pairs the
    /// greatest sum of the chosen functions in the box, plus the weighted tops of the others, with the
    /// least index in the box. At full depth it is the greatest key in the box. It counts one step.
    pub fn bound<L: Ledger>(&self, node: &Node, steps: &mut Steps<L>) -> Key
        requires { IsNode self.now node.now }
        ensures bound { result ≡ bound_of self.now node.now }
        ensures above { (p : Point) → IsTrue (has_point node.now.area p) → AtMost (key_at self.now p) result }
        ensures counted { steps.new ≡ steps.old + 1 }
    {
        steps.tick();
        self.bound_key(node)
    }
}
