// Axes gathered into a domain, line by line.
ghost use Rattle.std.specs.Prelude.{◌≡◌, ◌<◌, ◌+◌, [], ◌∷◌, ◌++◌, length, take};
ghost use Rattle.ivp_domain.specs.Domains.{domain_of};

use ivp_domain::{Axis, Domain, DomainFault, MOST_AXES};

/// The domain of a few axes and one more behind them, or why they make none.
pub fn extended(axes: &[Axis], axis: Axis) -> Result<Domain, DomainFault>
    requires { length axes.now < 4 }
    ensures { result ≡ domain_of (axes.now ++ axis ∷ []) }
{
    Domain::make(&one_more(axes, axis)[..axes.len() + 1])
}

// The axes, and this one behind them up to the last place.
fn one_more(axes: &[Axis], axis: Axis) -> [Axis; 4]
    requires { length axes.now < 4 }
    ensures { take (length axes.now + 1) result ≡ axes.now ++ axis ∷ [] }
{
    let mut all = [axis; MOST_AXES];
    all[..axes.len()].copy_from_slice(axes);
    all
}
