// What a certificate that is accepted proves.
ghost use Rattle.std.specs.Prelude.{◌≡◌, IsTrue, List, length, Ok};
ghost use Rattle.ivp_domain.specs.Domains.{is_point};
ghost use Rattle.ivp_problem.specs.Problems.{IsProblem, WeightedSum};
ghost use Rattle.ivp_problem.specs.Sums.{best_of, key_at, sum_at};
ghost use Rattle.ivp_cert.specs.declared.cert.Line.{Line};
ghost use Rattle.ivp_cert.specs.declared.claim.Claim.{Claim};
ghost use Rattle.ivp_cert.specs.Certificates.{Accepts, certificate_of};
ghost use Rattle.ivp_cert.specs.Decisions.{decision_of};
ghost use Rattle.ivp_cert.specs.Printed.{HasSums, IsPrefix};
ghost use Rattle.ivp_cert.specs.Texts.{decision_lines};
ghost use Rattle.ivp_cert.specs.Topmost.{AreTopmost};

use crate::claim::Decision;
use crate::printed::{lines_print, places_print, problem_prints};

/// What holds of a claim and a certificate that is accepted for it: the claim's point is the problem's best. It does
/// nothing.
pub fn accepted_law()
    ensures { (problem : WeightedSum) (claim : Claim) (cert : List Line) → IsProblem problem → IsTrue (is_point problem.axes claim.point) → length claim.point.at ≡ 4 → Accepts problem claim cert → claim.point ≡ best_of problem }
{}

/// What holds of the certificate of a problem: it is accepted for the best point and its sum, and it has the lines of all
/// topmost nodes of the tree whose bound is at most that point's key, in the order of their paths. It does nothing.
pub fn certificate_law()
    ensures accepted { (problem : WeightedSum) (claim : Claim) → IsProblem problem → claim.point ≡ best_of problem → claim.sum ≡ sum_at problem claim.point → Accepts problem claim (certificate_of problem) }
    ensures topmost { (problem : WeightedSum) → IsProblem problem → AreTopmost problem (key_at problem (best_of problem)) (certificate_of problem) }
{}

/// What holds of the text of a decision, by the definitions alone: it stands for the decision, so reading what was printed
/// gives the decision back. It changes nothing, and looks at each part of the decision once: what the type of a part says
/// of its value is known if the part is at hand.
pub fn printed_law(decision: &Decision, prefix: &[u8])
    requires prefix { IsPrefix prefix.now }
    requires point { IsTrue (is_point decision.now.problem.axes decision.now.claim.point) }
    requires sums { HasSums decision.now }
    ensures { decision_of (decision_lines prefix.now decision.now) ≡ Ok decision.now }
{
    problem_prints(&decision.problem);
    places_print(&decision.claim.point);
    lines_print(&decision.cert);
}
