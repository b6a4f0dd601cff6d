// A tray: it takes a node for later, or hands it back.
ghost use Rattle.std.specs.Prelude.{◌≡◌, List, Option, None};
ghost use Rattle.ivp_problem.specs.declared.node.Node.{Node};
ghost use Rattle.ivp_problem.specs.Problems.{WeightedSum};
ghost use Rattle.ivp_problem.specs.Trees.{IsNode};
ghost use Rattle.ivp_pool.specs.Closing.{Pushed};
ghost use Rattle.ivp_pool.specs.Hands.{EndState};

use ivp_problem::Node;

/// Where a worker puts nodes that others may take: a tray of the nodes of one problem.
pub trait Tray {
    /// The problem that the nodes are of.
    ghost problem: { Self → WeightedSum };

    /// The nodes that it has taken so far, in order.
    ghost took: { Self → List Node };

    /// If it is a worker's deque: which one, and what else the worker did there. No push changes it.
    ghost kept: { Self → Option EndState } = { λ _. None };

    /// Takes the node, or gives it back.
    fn push(&mut self, node: Node) -> Option<Node>
        requires { IsNode (problem self.old) node }
        ensures problem { problem self.new ≡ problem self.old }
        ensures kept { kept self.new ≡ kept self.old }
        ensures took { Pushed (took self.old) (took self.new) node result };
}
