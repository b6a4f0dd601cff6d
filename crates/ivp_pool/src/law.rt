// What the parts of several workers come to together.
ghost use Rattle.std.specs.Prelude.{◌≡◌, ◌≢◌, ℕ, ◌*◌, ◌^◌, ◌<◌, ◌≤◌, ◌⊎◌, List, [], ◌∷◌, IsTrue, slice_get, Some};
ghost use Rattle.ivp_domain.specs.declared.boxes.Point.{Point};
ghost use Rattle.ivp_domain.specs.Boxes.{has_point};
ghost use Rattle.ivp_problem.specs.declared.node.Node.{Node};
ghost use Rattle.ivp_problem.specs.Problems.{IsProblem, WeightedSum};
ghost use Rattle.ivp_problem.specs.Sums.{key_at};
ghost use Rattle.ivp_problem.specs.Trees.{has_in, IsNode, root_of};
ghost use Rattle.ivp_pool.specs.Parts.{Handed, handed_within, IsPart, Incumbent, KnowsMore, Outdoes, TreePart, part_size};
ghost use Rattle.ivp_pool.specs.Tallies.{AreLinked, IsTally, IsWholeTree, Tally};

/// What holds of the parts of a node: one stays a part if more is known; it has each point of the node that is still
/// wanted in a node that was handed to others; if the node itself wasn't handed, these are deeper nodes of the tree; and
/// a part is small. It does nothing.
pub fn parts_law()
    ensures raised { (problem : WeightedSum) (node : Node) (low high : Incumbent) (part : TreePart) → KnowsMore low high → IsPart problem low node part → IsPart problem high node part }
    ensures covered { (problem : WeightedSum) (node : Node) (low : Incumbent) (part : TreePart) → IsProblem problem → IsNode problem node → IsPart problem low node part → (p : Point) → IsTrue (has_point node.area p) → Outdoes low (key_at problem p) ⊎ IsTrue (has_in (handed_within problem node part) p) }
    ensures deeper { (problem : WeightedSum) (node : Node) (low : Incumbent) (part : TreePart) → IsNode problem node → IsPart problem low node part → part ≢ Handed → (place : ℕ) (child : Node) → slice_get (handed_within problem node part) place ≡ Some child → IsNode problem child × (node.depth < child.depth) }
    ensures few { (problem : WeightedSum) (node : Node) (low : Incumbent) (part : TreePart) → IsProblem problem → IsNode problem node → IsPart problem low node part → part_size part ≤ 65 * 2 ^ 28 }
{}

/// What holds of the calls that closed nodes, whoever made them: if their nodes are the root and all handed nodes, each
/// once, and each call's part is one for this key, they are together one part of the whole tree. It does nothing.
pub fn tally_law()
    ensures { (problem : WeightedSum) (key : Incumbent) (tallies : List Tally) → IsProblem problem → ((place : ℕ) (tally : Tally) → slice_get tallies place ≡ Some tally → IsTally problem key tally) → AreLinked problem (root_of problem ∷ []) tallies → IsWholeTree problem key tallies }
{}
