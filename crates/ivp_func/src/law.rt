// What the tests over all points of a domain come to.
ghost use Rattle.std.specs.Prelude.{◌↔◌, IsTrue, List};
ghost use Rattle.ivp_domain.specs.declared.axis.Axis.{Axis};
ghost use Rattle.ivp_func.specs.declared.piece.Piece.{Piece};
ghost use Rattle.ivp_func.specs.Functions.{has_values, HasValues, is_partition, IsPartition};

/// What holds of the tests over all points of a domain: the pieces pass them exactly if they
/// partition the domain, and exactly if each value is in range. It does nothing.
pub fn tests_law()
    ensures partition { (axes : List Axis) (pieces : List Piece) → (IsTrue (is_partition axes pieces) ↔ IsPartition axes pieces) }
    ensures values { (axes : List Axis) (pieces : List Piece) → (IsTrue (has_values axes pieces) ↔ HasValues axes pieces) }
{}
