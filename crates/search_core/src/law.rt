// What every interleaving of the workers of a search leaves true.
ghost use Rattle.std.specs.Prelude.{ℕ, List};
ghost use Rattle.ivp_problem.specs.declared.node.Node.{Node};
ghost use Rattle.ivp_problem.specs.Problems.{IsProblem, WeightedSum};
ghost use Rattle.search_core.specs.Cores.{Core, StepsTo, start_of, Step, Stepped};
ghost use Rattle.search_core.specs.Places.{IsFinished, IsIn, IsOver, IsSound, nodes_in};

/// What holds of every interleaving of the steps that workers make at one word and at their deques, whatever their number:
/// each step keeps a core sound, so every list of steps from the start leaves one that is sound; no step loses a node of a
/// deque, a frame or a done list; and if no node is left in a deque or a hand, each that was there at any time is in
/// exactly one worker's done list, and the greatest own key is that of the best point. It does nothing.
pub fn core_law()
    ensures kept { (problem : WeightedSum) (step : Step) (core core' : Core) → IsProblem problem → IsSound problem core → Stepped problem step core core' → IsSound problem core' }
    ensures sound { (problem : WeightedSum) (others : ℕ) (steps : List Step) (core : Core) → IsProblem problem → StepsTo problem steps (start_of problem others) core → IsSound problem core }
    ensures stays { (problem : WeightedSum) (steps : List Step) (core core' : Core) → StepsTo problem steps core core' → (node : Node) → IsIn (nodes_in core) node → IsIn (nodes_in core') node }
    ensures finished { (problem : WeightedSum) (others : ℕ) (steps later : List Step) (earlier core : Core) → IsProblem problem → StepsTo problem steps (start_of problem others) earlier → StepsTo problem later earlier core → IsOver core → IsFinished problem earlier core }
{}
